// Listeners over a list of links.
ghost use Rattle.std.specs.Prelude.{◌≡◌, ℕ, ◌++◌, ◌∷◌, ◌↔◌, Bool, List, Option, [], Some, None, IsErr, IsOk, IfSome, IfOk, OnOk, OnErr, map, option_map, option_to_list, string_bytes, IsFalse, true, false};
ghost use Rattle.std.proofs.Common.{rules};
ghost use Rattle.kr_outside.specs.Faults.{HasCause, KeepsSteady};
ghost use Rattle.kr_outside.specs.Host.{GivesOne};
ghost use Rattle.kr_outside.specs.Listener.{GivesNext, IsNewEnd, CountsLink, NotesEnd};
ghost use Rattle.kr_memory.specs.Plan.{plan_at_start, FailsNow, after_success, after_failure};
ghost use Rattle.kr_memory.specs.Links.{report_of, AreNew};

use crate::plan::Plan;
use kr_outside::{Failed, Link, Listener, Sink, Source};
use std::alloc::{AllocError, Global};
use std::collections::VecDeque;
use std::marker::Model;

// Counts a link that is given.
fn count_link(given: &mut u64)
    ensures { GivesOne given.old given.new }
{
    *given = given.saturating_add(1);
}

/// A listener that gives listed links in order, fails at planned calls, and ends after the last link.
#[derive(Drop)]
pub struct ListedLinks<I: Source + Drop, O: Sink + Drop> {
    address: String,
    links: VecDeque<Link<I, O>>,
    plan: Plan,
    given: u64,
    has_ended: bool,
}

impl<I: Source + Drop, O: Sink + Drop> Model for ListedLinks<I, O> {
    ghost use Rattle.std.specs.Prelude.{◌≡◌, IsTrue, [], string_bytes};
    ghost use Rattle.kr_memory.specs.Links.{LinksState, AreNew};

    ghost Value = { LinksState I O };

    ghost view = { λ l. record {
      address = string_bytes l.address;
      links = l.links.items;
      plan = l.plan;
      given = l.given;
      has_ended = l.has_ended;
    } };

    ghost invariant = { λ l. AreNew I.is_closed I.faults O.is_closed O.faults l.links.items
        × (IsTrue l.has_ended → l.links.items ≡ []) };
}

impl<I: Source + Drop, O: Sink + Drop> ListedLinks<I, O> {
    /// A listener of these links, at the empty path. Its calls are numbered from 0, including those
    /// that fail. Call number k fails if k is in `failing`; no link is lost by that.
    pub fn new(alloc: Global, links: Vec<Link<I, O>>, failing: Vec<u64>) -> Self
        requires { AreNew I.is_closed I.faults O.is_closed O.faults links.items }
        ensures { result ≡ record {
          address = [];
          links = links.items;
          plan = plan_at_start [] failing.items;
          given = 0;
          has_ended = false;
        } }
    {
        ListedLinks {
            address: String::new(alloc),
            links: VecDeque::from_vec(links),
            plan: Plan::new(Vec::new(alloc), failing),
            given: 0,
            has_ended: false,
        }
    }

    /// The listener, at this path.
    pub fn at(self, address: String) -> Self
        ensures { result ≡ record self { address = string_bytes address } }
    {
        let mut listener = self;
        listener.address = address;
        listener
    }

    /// Adds a link, which is given after the others.
    ///
    /// Refused if there is no memory for it.
    pub fn push(&mut self, input: I, output: O) -> Result<(), AllocError>
        requires input { IsNewEnd (I.is_closed input) (I.faults input) }
        requires output { IsNewEnd (O.is_closed output) (O.faults output) }
        requires not_ended { IsFalse self.old.has_ended }
        ensures added { OnOk result (self.new ≡ record self.old {
          links = self.old.links ++ record { input = input; output = output } ∷ [];
        }) }
        ensures unchanged { OnErr result (self.new ≡ self.old) }
    {
        self.links.reserve(1)?;
        self.links.push_back_reserved(Link { input, output });
        Ok(())
    }

    /// How many links were given.
    pub fn given(&self) -> u64
        ensures { result ≡ self.now.given }
    {
        self.given
    }

    /// Whether the listener has returned None.
    pub fn has_ended(&self) -> bool
        ensures { result ≡ self.now.has_ended }
    {
        self.has_ended
    }

    /// Its path. The links left are dropped.
    pub fn into_address(self) -> String
        ensures { string_bytes result ≡ self.address }
    {
        self.address
    }
}

impl<I: Source + Drop + Send + 'static, O: Sink + Drop + Send + 'static> Listener
    for ListedLinks<I, O> {
    type In = I;

    type Out = O;

    ghost address = { λ l. l.address };

    ghost coming = { λ l. Some (map (report_of I.left I.is_steady O.written O.is_steady) l.links) };

    ghost given = { λ l. l.given };

    ghost has_ended = { λ l. l.has_ended };

    ghost faults = { λ l. l.plan.faults };

    ghost is_steady = { λ _. false };

    ghost steady_below = { Prim.search rules };

    /// The first of the links left, or None if none is left.
    ///
    /// Refused with `Failed` at the calls that the plan lists; no clause says which these are.
    fn accept(&mut self) -> Result<Option<Link<I, O>>, Failed> {
        if self.plan.fails_now() {
            return Err(self.plan.fail());
        }
        self.plan.succeed();
        match self.links.pop_front() {
            None => {
                self.has_ended = true;
                Ok(None)
            }
            Some(link) => {
                count_link(&mut self.given);
                Ok(Some(link))
            }
        }
    }
}

/// A listener that gives listed links in order, never fails, and ends after the last link.
#[derive(Drop)]
pub struct SteadyLinks<I: Source + Drop, O: Sink + Drop> {
    address: String,
    links: VecDeque<Link<I, O>>,
    given: u64,
    has_ended: bool,
}

impl<I: Source + Drop, O: Sink + Drop> Model for SteadyLinks<I, O> {
    ghost use Rattle.std.specs.Prelude.{◌≡◌, IsTrue, [], string_bytes};
    ghost use Rattle.kr_memory.specs.Links.{SteadyLinksState, AreNew};

    ghost Value = { SteadyLinksState I O };

    ghost view = { λ l. record {
      address = string_bytes l.address;
      links = l.links.items;
      given = l.given;
      has_ended = l.has_ended;
    } };

    ghost invariant = { λ l. AreNew I.is_closed I.faults O.is_closed O.faults l.links.items
        × (IsTrue l.has_ended → l.links.items ≡ []) };
}

impl<I: Source + Drop, O: Sink + Drop> SteadyLinks<I, O> {
    /// A listener of these links, at the empty path.
    pub fn new(alloc: Global, links: Vec<Link<I, O>>) -> Self
        requires { AreNew I.is_closed I.faults O.is_closed O.faults links.items }
        ensures { result ≡ record {
          address = [];
          links = links.items;
          given = 0;
          has_ended = false;
        } }
    {
        SteadyLinks {
            address: String::new(alloc),
            links: VecDeque::from_vec(links),
            given: 0,
            has_ended: false,
        }
    }

    /// The listener, at this path.
    pub fn at(self, address: String) -> Self
        ensures { result ≡ record self { address = string_bytes address } }
    {
        let mut listener = self;
        listener.address = address;
        listener
    }

    /// Adds a link, which is given after the others.
    ///
    /// Refused if there is no memory for it.
    pub fn push(&mut self, input: I, output: O) -> Result<(), AllocError>
        requires input { IsNewEnd (I.is_closed input) (I.faults input) }
        requires output { IsNewEnd (O.is_closed output) (O.faults output) }
        requires not_ended { IsFalse self.old.has_ended }
        ensures added { OnOk result (self.new ≡ record self.old {
          links = self.old.links ++ record { input = input; output = output } ∷ [];
        }) }
        ensures unchanged { OnErr result (self.new ≡ self.old) }
    {
        self.links.reserve(1)?;
        self.links.push_back_reserved(Link { input, output });
        Ok(())
    }

    /// How many links were given.
    pub fn given(&self) -> u64
        ensures { result ≡ self.now.given }
    {
        self.given
    }

    /// Whether the listener has returned None.
    pub fn has_ended(&self) -> bool
        ensures { result ≡ self.now.has_ended }
    {
        self.has_ended
    }

    /// Its path. The links left are dropped.
    pub fn into_address(self) -> String
        ensures { string_bytes result ≡ self.address }
    {
        self.address
    }
}

impl<I: Source + Drop + Send + 'static, O: Sink + Drop + Send + 'static> Listener
    for SteadyLinks<I, O> {
    type In = I;

    type Out = O;

    ghost address = { λ l. l.address };

    ghost coming = { λ l. Some (map (report_of I.left I.is_steady O.written O.is_steady) l.links) };

    ghost given = { λ l. l.given };

    ghost has_ended = { λ l. l.has_ended };

    ghost faults = { λ _. 0 };

    ghost is_steady = { λ _. true };

    ghost steady_below = { Prim.search rules };

    /// The first of the links left, or None if none is left. It is never refused.
    fn accept(&mut self) -> Result<Option<Link<I, O>>, Failed> {
        match self.links.pop_front() {
            None => {
                self.has_ended = true;
                Ok(None)
            }
            Some(link) => {
                count_link(&mut self.given);
                Ok(Some(link))
            }
        }
    }
}

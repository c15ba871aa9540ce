// Links in memory that wait for one another.
ghost use Rattle.std.specs.Prelude.{OnOk, IsFalse};
ghost use Rattle.kr_outside.specs.Listener.{IsNewEnd};

use crate::calls::sent_by;
use crate::streams::{Flag, HeldSink, TellingSource};
use kr_memory::{FlagSink, GatedSource, ListedLinks, MemorySink, MemorySource};
use std::alloc::{AllocError, Global};
use std::sync::Arc;
use std::sync::atomic::AtomicBool;
use std::test::Fail;

/// An input that waits for a flag, and sets one.
pub type Input = TellingSource<GatedSource<MemorySource>>;

/// An output that waits for a flag, and sets one.
pub type Output = HeldSink<FlagSink<MemorySink>>;

/// A listener of such links.
pub type Links = ListedLinks<Input, Output>;

/// The flags for which a link waits, and those that it sets.
#[derive(Drop)]
pub struct Flags {
    /// The client sends nothing before it is set, and nothing at all if it looks for it that many times in vain.
    pub gate: Flag,
    pub looks: u64,
    /// The client reads nothing after the first write before it is set.
    pub is_read_on: Flag,
    /// It is set once all that the client sent was read, or the link was dropped.
    pub is_over: Flag,
    /// It is set once this many bytes were written.
    pub is_answered: Flag,
    pub answer: u64,
}

fn flag(alloc: Global, is_set: bool) -> Result<Flag, AllocError> {
    Ok(Arc::new(alloc, AtomicBool::new(is_set))?)
}

impl Flags {
    /// The flags of a link that waits for nothing. An answer to one call counts as answered.
    pub fn new(alloc: Global) -> Result<Flags, AllocError> {
        Ok(Flags {
            gate: flag(alloc, true)?,
            looks: 1,
            is_read_on: flag(alloc, true)?,
            is_over: flag(alloc, false)?,
            is_answered: flag(alloc, false)?,
            answer: 121,
        })
    }

    /// The client waits for this flag, which it looks for this many times.
    pub fn wait_for(&mut self, gate: &Flag, looks: u64) -> Result<(), AllocError> {
        self.gate = Arc::try_clone(gate)?;
        self.looks = looks;
        Ok(())
    }
}

// The input of a link, and its output.
fn input_of(alloc: Global, bytes: Vec<u8>, gate: Flag, looks: u64, is_over: Flag) -> Input
    ensures { IsNewEnd result.source.source.is_closed result.source.source.plan.faults }
{
    let source = MemorySource::new(bytes, Vec::new(alloc), Vec::new(alloc));
    TellingSource::new(GatedSource::with_turns(source, gate, looks), is_over)
}

fn output_of(alloc: Global, is_read_on: Flag, is_answered: Flag, answer: u64) -> Output
    ensures { IsNewEnd result.sink.sink.is_closed result.sink.sink.plan.faults }
{
    let sink = MemorySink::new(alloc, Vec::new(alloc), Vec::new(alloc));
    HeldSink::new(FlagSink::new(sink, is_answered, answer), is_read_on)
}

/// A listener without links, which fails at these calls.
pub fn no_links(alloc: Global, failing: Vec<u64>) -> Links
    ensures { IsFalse result.has_ended }
{
    ListedLinks::new(alloc, Vec::new(alloc), failing)
}

/// Adds a link with these flags, whose client sends what the word says.
pub fn add(alloc: Global, links: &mut Links, word: &str, flags: Flags) -> Result<(), Fail>
    requires { IsFalse links.old.has_ended }
    ensures { OnOk result (IsFalse links.new.has_ended) }
{
    let Flags {
        gate,
        looks,
        is_read_on,
        is_over,
        is_answered,
        answer,
    } = flags;
    let input = input_of(alloc, sent_by(alloc, word)?, gate, looks, is_over);
    let output = output_of(alloc, is_read_on, is_answered, answer);
    links.push(input, output)?;
    Ok(())
}

/// A listener of one link for each word, none of which waits; it fails at these calls.
pub fn links_of(alloc: Global, words: &str, failing: Vec<u64>) -> Result<Links, Fail> {
    let mut links = no_links(alloc, failing);
    for word in words.split_ascii_whitespace() {
        add(alloc, &mut links, word, Flags::new(alloc)?)?;
    }
    Ok(links)
}

/// Two links. The first client sends nothing before the second has its answer, and nothing at all if it looks
/// for that this many times in vain.
pub fn crossed_links(alloc: Global, looks: u64) -> Result<Links, Fail> {
    let mut links = no_links(alloc, Vec::new(alloc));
    let (mut first, second) = (Flags::new(alloc)?, Flags::new(alloc)?);
    first.wait_for(&second.is_answered, looks)?;
    add(alloc, &mut links, "call", first)?;
    add(alloc, &mut links, "call", second)?;
    Ok(links)
}

/// Three links. The clients of the first two send nothing before the third link was dropped.
pub fn links_that_await_a_refusal(alloc: Global) -> Result<Links, Fail> {
    let mut links = no_links(alloc, Vec::new(alloc));
    let (mut first, mut second) = (Flags::new(alloc)?, Flags::new(alloc)?);
    let third = Flags::new(alloc)?;
    first.wait_for(&third.is_over, u64::MAX)?;
    second.wait_for(&third.is_over, u64::MAX)?;
    add(alloc, &mut links, "call", first)?;
    add(alloc, &mut links, "call", second)?;
    add(alloc, &mut links, "call", third)?;
    Ok(links)
}

/// Two links. The second client sends nothing if the first link wasn't dropped before.
pub fn links_of_which_one_is_dropped(alloc: Global) -> Result<Links, Fail> {
    let mut links = no_links(alloc, Vec::new(alloc));
    let (first, mut second) = (Flags::new(alloc)?, Flags::new(alloc)?);
    second.wait_for(&first.is_over, 1)?;
    add(alloc, &mut links, "call", first)?;
    add(alloc, &mut links, "call", second)?;
    Ok(links)
}

/// Two links. The first client reads nothing of the replies to its calls, which are large, before the second has
/// its answer, and the second one sends nothing before all calls of the first one were read.
pub fn links_of_which_one_is_not_read(alloc: Global) -> Result<Links, Fail> {
    let mut links = no_links(alloc, Vec::new(alloc));
    let (mut first, mut second) = (Flags::new(alloc)?, Flags::new(alloc)?);
    first.is_read_on = Arc::try_clone(&second.is_answered)?;
    second.wait_for(&first.is_over, u64::MAX)?;
    add(alloc, &mut links, "large", first)?;
    add(alloc, &mut links, "call", second)?;
    Ok(links)
}

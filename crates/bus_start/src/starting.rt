// What becomes of each message until the link has started.
ghost use Rattle.std.specs.Prelude.{◌≡◌, Ok, Err, OnOk, OnErr, IfErr};
ghost use Rattle.bus_start.specs.Starts.{Agrees, accepted, answered, has_started, hear, is_one, kept_with, open_at, opening, rows_of, with_answer};

use crate::answer::{Answer, Question, StartRefused};
use crate::start::Starting;
use std::alloc::Global;

/// The most bytes of the messages that are kept.
const MOST_BYTES: u64 = 16_777_216;

// Whether the number says that the link owns the name.
fn is_one(number: Option<u32>) -> bool
    ensures { result ≡ is_one number }
{
    match number {
        Some(number) => number == 1,
        None => false,
    }
}

impl<T: Drop> Starting<T> {
    /// A link whose calls are all open.
    pub fn new(alloc: Global) -> Starting<T>
        ensures { rows_of result ≡ opening }
    {
        Starting {
            is_named: false,
            is_watching: false,
            is_owner: false,
            kept: Vec::new(alloc),
            bytes: 0,
        }
    }

    /// Whether all calls are answered: the link owns the name of the service.
    pub fn has_started(&self) -> bool
        ensures { result ≡ has_started (rows_of self.now) }
    {
        self.is_named && self.is_watching && self.is_owner
    }

    // The call with this serial, if it is open.
    fn open_at(&self, serial: u32) -> Option<Question>
        ensures { result ≡ open_at serial (rows_of self.now) }
    {
        if serial == 1 && !self.is_named {
            return Some(Question::Hello);
        }
        if serial == 2 && !self.is_watching {
            return Some(Question::WatchOwners);
        }
        if serial == 3 && !self.is_owner {
            return Some(Question::OwnName);
        }
        None
    }

    // Hears a return to an open call.
    fn accept(&mut self, question: Question, number: Option<u32>) -> Result<(), StartRefused>
        ensures heard { OnOk result
            (accepted question number (rows_of self.old) ≡ Ok (rows_of self.new)) }
        ensures refused { IfErr result (λ why.
            accepted question number (rows_of self.old) ≡ Err why) }
        ensures unchanged { OnErr result (rows_of self.new ≡ rows_of self.old) }
    {
        match question {
            Question::Hello => {
                self.is_named = true;
                Ok(())
            }
            Question::WatchOwners => {
                self.is_watching = true;
                Ok(())
            }
            Question::OwnName => {
                if !is_one(number) {
                    return Err(StartRefused::NameTaken);
                }
                self.is_owner = true;
                Ok(())
            }
        }
    }

    // Hears the answer to an open call.
    fn answer(&mut self, question: Question, answer: Answer) -> Result<(), StartRefused>
        ensures heard { OnOk result
            (answered question answer (rows_of self.old) ≡ Ok (rows_of self.new)) }
        ensures refused { IfErr result (λ why.
            answered question answer (rows_of self.old) ≡ Err why) }
        ensures unchanged { OnErr result (rows_of self.new ≡ rows_of self.old) }
    {
        if answer.is_error {
            return Err(StartRefused::Refused(question));
        }
        self.accept(question, answer.number)
    }

    // Keeps a message of this many bytes.
    fn keep(&mut self, message: T, size: u32) -> Result<(), StartRefused>
        ensures heard { OnOk result
            (kept_with message size (rows_of self.old) ≡ Ok (rows_of self.new)) }
        ensures refused { IfErr result (λ why.
            Agrees why (kept_with message size (rows_of self.old))) }
        ensures unchanged { OnErr result (rows_of self.new ≡ rows_of self.old) }
    {
        let bytes = self.bytes + u64::from(size);
        if bytes > MOST_BYTES {
            return Err(StartRefused::Early);
        }
        match self.kept.push(message) {
            Ok(()) => {
                self.bytes = bytes;
                Ok(())
            }
            Err(_) => Err(StartRefused::OutOfMemory),
        }
    }

    // The open call that the answer is about.
    fn asked_by(&self, answer: Option<Answer>) -> Option<(Question, Answer)>
        ensures { result ≡ with_answer answer (rows_of self.now) }
    {
        match answer {
            Some(answer) => match self.open_at(answer.to) {
                Some(question) => Some((question, answer)),
                None => None,
            },
            None => None,
        }
    }

    /// Hears a message of this many bytes, which is this answer of the bus, if it is one. It is kept
    /// unless it answers an open call.
    ///
    /// Refused with `Refused` if the bus answered an open call by an error, with `NameTaken` if it says
    /// that the name of the service has another owner, with `Early` if too much is kept, and with
    /// `OutOfMemory`. Nothing has changed then.
    pub fn hear(
        &mut self,
        answer: Option<Answer>,
        message: T,
        size: u32,
    ) -> Result<(), StartRefused>
        ensures heard { OnOk result
            (hear answer message size (rows_of self.old) ≡ Ok (rows_of self.new)) }
        ensures refused { IfErr result (λ why.
            Agrees why (hear answer message size (rows_of self.old))) }
        ensures unchanged { OnErr result (rows_of self.new ≡ rows_of self.old) }
    {
        match self.asked_by(answer) {
            Some((question, answer)) => self.answer(question, answer),
            None => self.keep(message, size),
        }
    }

    /// What was kept, in order.
    pub fn into_kept(self) -> Vec<T>
        ensures { result.items ≡ (rows_of self).kept }
    {
        self.kept
    }
}

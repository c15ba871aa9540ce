// What a connection gets, and what is recorded, in words.

use check_rows::Line;
use check_words::write_outs;
use service_history::service_machine::secret_calls::Taken;
use service_history::service_machine::service_tables::{ReadFate, StoreFate};
use service_history::service_machine::{Event, Fates};

/// Writes all that waited for a connection; of a hundred outputs or more, their number.
pub fn write_taken(taken: Taken, line: &mut Line) {
    match taken {
        Taken::Outs(outs) => {
            if outs.len() < 100 {
                write_outs(line, outs.as_slice());
            } else {
                line.number(outs.len() as u64);
                line.add(" outputs");
            }
        }
        Taken::Overrun => line.add("overrun"),
        Taken::Closed => line.add("closed"),
        Taken::Empty => (),
        Taken::Missing => (),
    }
}

/// What a connection gets, in a word.
pub fn taken_word(taken: Taken) -> &'static str {
    match taken {
        Taken::Outs(_) => "outputs",
        Taken::Empty => "nothing yet",
        Taken::Overrun => "overrun",
        Taken::Closed => "closed",
        Taken::Missing => "missing",
    }
}

fn store_word(fate: StoreFate) -> &'static str {
    match fate {
        StoreFate::Stored => "Stored",
        StoreFate::Before => "Before",
        StoreFate::Unsure => "Unsure",
    }
}

fn read_word(fate: ReadFate) -> &'static str {
    match fate {
        ReadFate::Old => "Old",
        ReadFate::New => "New",
        ReadFate::Other => "Other",
        ReadFate::ReadFailed => "ReadFailed",
    }
}

fn write_word(word: &'static str, line: &mut Line) {
    line.add(word);
    line.add(" ");
}

fn write_each(fates: &Fates, line: &mut Line) {
    let (made, read, stored) = fates.parts();
    if let Some(fate) = made {
        write_word(store_word(fate), line);
    }
    if let Some(fate) = read {
        write_word(read_word(fate), line);
    }
    if let Some(fate) = stored {
        write_word(store_word(fate), line);
    }
    line.add("and no more");
}

/// Writes how each storing and each reading of the last event ended.
pub fn write_fates(event: Option<&Event>, line: &mut Line) {
    match event {
        Some(Event::Arrive(recorded)) => write_each(&recorded.get().fates, line),
        _ => line.add("no request"),
    }
}

// Which collections are due, by the flags and timeouts of their files.

use crate::checks::{number, same_text, word};
use idle_lock::{Plan, Timer};
use kr_base::Stem;
use std::alloc::Global;
use std::test::Fail;

// A row has timers, each a stem, its flags and its timeout; what is reported to the plan; and what is due at the
// last moment. A letter is a stem. `+a 100` unlocks it at 100, `*a 150` changes it, `-a 0` locks it.
const ROWS: &str = "\
a 2 60;+a 100;159 => none
a 2 60;+a 100;160 => a
a 3 60;+a 100,*a 150;159 => none
a 3 60;+a 100,*a 150;160 => a
a 1 60;+a 100,*a 150;209 => none
a 1 60;+a 100,*a 150;210 => a
a 1 60;+a 100;160 => a
a 2 0;+a 100;100 => a
a 2 60;+a 100,*a 150;160 => a
a 1 60;+a 100,+a 150;160 => a
a 2 60;+a 100,-a 0;160 => none
a 2 60;+a 100,-a 0,+a 200;259 => none
a 2 60;+a 100,-a 0,+a 200;260 => a
a 1 60;+a 100,*a 150,-a 0,*a 160,+a 200;259 => none
a 1 60;*a 100;18446744073709551615 => none
a 0 60;+a 100;18446744073709551615 => none
a 4 0;+a 100;18446744073709551615 => none
a 6 60;+a 100;160 => a
a 2 4294967295;+a 18446744073709551615;18446744073709551615 => none
a 3 60;+a 18446744073709551600,*a 100;18446744073709551615 => a
a 2 60,b 1 30;+a 100,+b 100,*b 140;160 => a
a 2 60,b 1 30;+a 100,+b 100;160 => a b
a 2 60,b 2 60;+b 100;160 => b
a 2 60;+c 100;160 => none
";

fn stem(alloc: Global, text: &str) -> Result<Stem, Fail> {
    Ok(Stem::new(alloc, text)?.ok_or("a stem")?)
}

fn timer(alloc: Global, text: &str) -> Result<Timer, Fail> {
    let stem = stem(alloc, word(text, 0))?;
    let flags = u32::try_from(number(word(text, 1))?)?;
    let timeout = u32::try_from(number(word(text, 2))?)?;
    Ok(Timer {
        stem,
        flags,
        timeout,
    })
}

fn timers(alloc: Global, text: &str) -> Result<Vec<Timer>, Fail> {
    let mut timers = Vec::new(alloc);
    for part in text.split(',') {
        let timer = timer(alloc, part)?;
        timers.push(timer)?;
    }
    Ok(timers)
}

fn tell(alloc: Global, plan: &mut Plan, text: &str) -> Result<(), Fail> {
    let (sign, name) = word(text, 0).split_at_checked(1).ok_or("a sign")?;
    let stem = stem(alloc, name)?;
    let now = number(word(text, 1))?;
    match sign {
        "+" => plan.opened(&stem, now),
        "*" => plan.changed(&stem, now),
        _ => plan.closed(&stem),
    }
    Ok(())
}

fn due(alloc: Global, plan: &Plan, now: &str) -> Result<String, Fail> {
    let mut text = String::new(alloc);
    let stems = plan.due(number(now)?)?;
    for stem in &stems {
        if !text.is_empty() {
            text.push(' ')?;
        }
        text.push_str(stem.as_str())?;
    }
    if stems.is_empty() {
        text.push_str("none")?;
    }
    Ok(text)
}

fn found(alloc: Global, given: &str) -> Result<String, Fail> {
    let (first, rest) = given.split_once(';').ok_or("timers")?;
    let (told, now) = rest.split_once(';').ok_or("what is told")?;
    let timers = timers(alloc, first)?;
    let mut plan = Plan::new(timers)?;
    for part in told.split(',') {
        tell(alloc, &mut plan, part)?;
    }
    due(alloc, &plan, now)
}

#[test]
fn collections_are_due_at_their_deadline(rt: HostRuntime) -> Result<(), Fail> {
    for row in ROWS.lines() {
        let (given, want) = row.split_once(" => ").ok_or("row")?;
        let found = found(rt.alloc(), given)?;
        same_text(&rt, found.as_str(), want, row);
    }
    Ok(())
}

use crate::checks::{cell, number, same_number, same_text};
use crate::words::{ask, decimal, ended, kind, name_of, row, spaced};
use kr_base::{ConnId, PromptId};
use prompt_state::{Ended, PromptRefused, PromptState};
use std::alloc::Global;
use std::test::Fail;

// Connection 1 is an owner, 2 an agent, and 3 a third connection. A row has who calls, the call,
// the prompt, the round or what the prompt is for, the answer, and the prompt afterwards with its
// stage, round, targets done and left, and wrong answers.
const HISTORY: &str = "\
1|begin|1|a b c|1|made 0 /abc 0
3|ask|1||no prompt|made 0 /abc 0
2|answer|1|1|not agent|made 0 /abc 0
1|ask|1||ok|asked 1 /abc 0
1|sent|1||none|asked 1 /abc 0
1|ask|1||ok|asked 1 /abc 0
1|begin|2|new|2|made 0 new 0
3|begin|3|d|3|made 0 /d 0
3|ask|3||ok|asked 1 /d 0
3|taken|1||no|asked 1 /abc 0
2|register|1||ok|asked 1 /abc 0
2|taken|1||no|asked 1 /abc 0
3|taken|1||yes|asked 1 /abc 0
2|asks|1||ask 2 1 1 0,ask 2 3 1 0|asked 1 /abc 0
3|register|1||agent taken|asked 1 /abc 0
2|register|1||ok|asked 1 /abc 0
1|ask|2||ok|asked 1 new 0
1|sent|2||ask 2 2 1 0|asked 1 new 0
1|answer|1|1|not agent|asked 1 /abc 0
2|answer|1|2|old round|asked 1 /abc 0
2|answer|9|1|no prompt|gone
2|answer|1|1|deriving|deriving 1 /abc 0
2|answer|1|1|old round|deriving 1 /abc 0
1|sent|1||none|deriving 1 /abc 0
1|derived|1|2|no|deriving 1 /abc 0
1|derived|1|1|yes|deriving 1 /abc 0
1|wrong|1||1|deriving 1 /abc 1
1|again|1||2|asked 2 /abc 1
1|derived|1|1|no|asked 2 /abc 1
1|sent|1||ask 2 1 2 1|asked 2 /abc 1
2|answer|1|1|old round|asked 2 /abc 1
2|answer|1|2|deriving|deriving 2 /abc 1
1|done|1||ok|deriving 2 a/bc 1
1|clear|1||ok|deriving 2 a/bc 0
1|drop|1||ok|deriving 2 a/c 0
1|first|1||c|deriving 2 a/c 0
1|again|1||3|asked 3 a/c 0
2|answer|1|3|deriving|deriving 3 a/c 0
3|unregister|1||not agent|deriving 3 a/c 0
2|unregister|1||ok|asked 4 a/c 0
1|derived|1|3|no|asked 4 a/c 0
2|answer|1|4|not agent|asked 4 a/c 0
2|asks|1||none|asked 4 a/c 0
3|register|3||ok|asked 1 /d 0
3|asks|1||ask 3 1 4 0,ask 3 2 1 0,ask 3 3 1 0|asked 4 a/c 0
3|answer|1|4|deriving|deriving 4 a/c 0
1|done|1||ok|deriving 4 ac/ 0
1|done|1||ok|deriving 4 ac/ 0
1|drop|1||ok|deriving 4 ac/ 0
1|first|1||none|deriving 4 ac/ 0
1|end|1||ended 1 1 ac/|gone
1|derived|1|4|no|gone
1|dismiss|1||no prompt|gone
3|dismiss|2||no prompt|asked 1 new 0
3|refuse|2|2|old round|asked 1 new 0
3|refuse|2|1|ended 1 2 new|gone
1|begin|4|a|4|made 0 /a 0
1|dismiss|4||ended 1 4 /a|gone
1|begin|5|a|5|made 0 /a 0
1|begin|6|b|6|made 0 /b 0
1|ask|6||ok|asked 1 /b 0
3|answer|6|1|deriving|deriving 1 /b 0
3|gone|6||ok|asked 2 /b 0
1|ask|3||no prompt|gone
2|asks|6||none|asked 2 /b 0
2|register|6||ok|asked 2 /b 0
2|asks|6||ask 2 6 2 0|asked 2 /b 0
1|gone|5||ok|gone
1|dismiss|6||no prompt|gone
2|answer|6|2|no prompt|gone
1|begin|7|c|7|made 0 /c 0
1|begin|8|change c|8|made 0 change c 0
1|ask|8||ok|asked 1 change c 0
1|sent|8||ask 2 8 1 0|asked 1 change c 0
1|first|8||none|asked 1 change c 0
2|answer|8|1|deriving|deriving 1 change c 0
1|derived|8|1|yes|deriving 1 change c 0
1|end|8||ended 1 8 change c|gone
";

// The result of a call that only succeeds or is refused.
fn outcome(answer: Result<(), PromptRefused>) -> &'static str {
    match answer {
        Ok(()) => "ok",
        Err(refused) => name_of(refused),
    }
}

// The result of a call that ends a prompt.
fn left(alloc: Global, answer: Result<Ended, PromptRefused>) -> Result<String, Fail> {
    match answer {
        Ok(left) => ended(alloc, &left),
        Err(refused) => spaced(alloc, &[name_of(refused)]),
    }
}

// Begins a prompt.
fn begun(alloc: Global, table: &mut PromptState, who: ConnId, words: &str) -> Result<String, Fail> {
    match table.begin(who, kind(alloc, words)?) {
        Ok(prompt) => decimal(alloc, prompt.0),
        Err(refused) => spaced(alloc, &[name_of(refused)]),
    }
}

// Answers a prompt.
fn answered(
    alloc: Global,
    table: &mut PromptState,
    prompt: PromptId,
    round: u64,
    from: ConnId,
) -> Result<String, Fail> {
    match table.answer(prompt, round, from) {
        Ok(None) => spaced(alloc, &["deriving"]),
        Ok(Some(left)) => ended(alloc, &left),
        Err(refused) => spaced(alloc, &[name_of(refused)]),
    }
}

// Counts one more wrong answer.
fn wrong(table: &mut PromptState, prompt: PromptId) -> u64 {
    if table.row(prompt).is_none() {
        return 0;
    }
    u64::from(table.wrong(prompt))
}

// Asks the prompt in its next round.
fn again(table: &mut PromptState, prompt: PromptId) -> u64 {
    match table.row(prompt) {
        Some(row) if row.stage.round() < u64::MAX => {}
        _ => return 0,
    }
    table.again(prompt)
}

// Ends a prompt.
fn end(alloc: Global, table: &mut PromptState, prompt: PromptId) -> Result<String, Fail> {
    if table.row(prompt).is_none() {
        return spaced(alloc, &["gone"]);
    }
    let left = table.end(prompt);
    ended(alloc, &left)
}

// What the agent is sent when each prompt is asked again.
fn asks(alloc: Global, table: &PromptState) -> Result<String, Fail> {
    let mut text = String::new(alloc);
    let mut after = PromptId(0);
    for _ in 0..100u64 {
        let Some(next) = table.next_ask(after) else {
            break;
        };
        if !text.is_empty() {
            text.push(',')?;
        }
        let sent = ask(alloc, &next)?;
        text.push_str(sent.as_str())?;
        after = next.prompt;
    }
    if text.is_empty() {
        text.push_str("none")?;
    }
    Ok(text)
}

// What the agent is sent when a prompt is asked.
fn sent(alloc: Global, table: &PromptState, prompt: PromptId) -> Result<String, Fail> {
    match table.ask_of(prompt) {
        Some(sent) => ask(alloc, &sent),
        None => spaced(alloc, &["none"]),
    }
}

// The first target that is left.
fn first(alloc: Global, table: &PromptState, prompt: PromptId) -> Result<String, Fail> {
    match table.first_open(prompt) {
        Some(target) => spaced(alloc, &[target.given.as_str()]),
        None => spaced(alloc, &["none"]),
    }
}

// Makes a call that returns nothing.
fn changed(table: &mut PromptState, who: ConnId, call: &str, prompt: PromptId) -> &'static str {
    match call {
        "done" => table.done(prompt),
        "drop" => table.drop_target(prompt),
        "clear" => table.clear_wrong(prompt),
        "gone" => table.gone(who),
        _ => return "no such call",
    }
    "ok"
}

// Yes or no.
fn told(is: bool) -> &'static str {
    if is { "yes" } else { "no" }
}

// The answer to an owner's call.
fn of_owner(
    alloc: Global,
    table: &mut PromptState,
    who: ConnId,
    call: &str,
    prompt: PromptId,
    words: &str,
) -> Result<String, Fail> {
    match call {
        "begin" => begun(alloc, table, who, words),
        "ask" => spaced(alloc, &[outcome(table.ask(prompt, who))]),
        "dismiss" => left(alloc, table.dismiss(prompt, who)),
        "wrong" => decimal(alloc, wrong(table, prompt)),
        "again" => decimal(alloc, again(table, prompt)),
        "end" => end(alloc, table, prompt),
        "first" => first(alloc, table, prompt),
        "sent" => sent(alloc, table, prompt),
        _ => spaced(alloc, &[changed(table, who, call, prompt)]),
    }
}

// The answer to a call of an agent, or of one that wants to be the agent.
fn of_agent(
    alloc: Global,
    table: &mut PromptState,
    who: ConnId,
    call: &str,
    prompt: PromptId,
    words: &str,
) -> Result<String, Fail> {
    match call {
        "register" => spaced(alloc, &[outcome(table.register(who))]),
        "unregister" => spaced(alloc, &[outcome(table.unregister(who))]),
        "asks" => asks(alloc, table),
        "answer" => answered(alloc, table, prompt, number(words)?, who),
        "refuse" => left(alloc, table.refuse(prompt, number(words)?, who)),
        "taken" => spaced(alloc, &[told(table.is_taken(who))]),
        "derived" => spaced(alloc, &[told(table.derived(prompt, number(words)?))]),
        _ => of_owner(alloc, table, who, call, prompt, words),
    }
}

// The prompt afterwards.
fn state(alloc: Global, table: &PromptState, prompt: PromptId) -> Result<String, Fail> {
    match table.row(prompt) {
        Some(found) => row(alloc, found),
        None => spaced(alloc, &["gone"]),
    }
}

// The answer to a row's call.
fn answer(alloc: Global, table: &mut PromptState, row: &str) -> Result<String, Fail> {
    let who = ConnId(number(cell(row, 0))?);
    let prompt = PromptId(number(cell(row, 2))?);
    of_agent(alloc, table, who, cell(row, 1), prompt, cell(row, 3))
}

// The prompt of a row, afterwards.
fn afterwards(alloc: Global, table: &PromptState, row: &str) -> Result<String, Fail> {
    let prompt = PromptId(number(cell(row, 2))?);
    state(alloc, table, prompt)
}

#[test]
fn an_owner_an_agent_and_a_third_share_the_prompts(rt: HostRuntime) -> Result<(), Fail> {
    let alloc = rt.alloc();
    let mut table = PromptState::new(alloc);
    for row in HISTORY.lines() {
        let found = answer(alloc, &mut table, row)?;
        same_text(&rt, found.as_str(), cell(row, 4), row);
        let after = afterwards(alloc, &table, row)?;
        same_text(&rt, after.as_str(), cell(row, 5), row);
    }
    Ok(())
}

// The number of prompts that the connection can begin, if it tries this many.
fn begun_of(alloc: Global, table: &mut PromptState, who: ConnId, tries: u64) -> Result<u64, Fail> {
    let mut count: u64 = 0;
    for _ in 0..tries {
        if table.begin(who, kind(alloc, "a")?).is_ok() {
            count = count.saturating_add(1);
        }
    }
    Ok(count)
}

#[test]
fn a_65th_prompt_is_refused(rt: HostRuntime) -> Result<(), Fail> {
    let alloc = rt.alloc();
    let mut table = PromptState::new(alloc);
    same_number(&rt, begun_of(alloc, &mut table, ConnId(1), 70)?, 64, "1");
    same_number(&rt, begun_of(alloc, &mut table, ConnId(2), 70)?, 64, "2");
    let found = left(alloc, table.dismiss(PromptId(7), ConnId(1)))?;
    same_text(&rt, found.as_str(), "ended 1 7 /a", "7");
    same_number(
        &rt,
        begun_of(alloc, &mut table, ConnId(1), 2)?,
        1,
        "1 again",
    );
    Ok(())
}

// The rows of a table as one text.
fn all_rows(alloc: Global, table: &PromptState) -> Result<String, Fail> {
    let prompts = table.rows()?;
    let mut text = decimal(alloc, prompts.next)?;
    for found in prompts.rows.as_slice() {
        text.push(',')?;
        let told = row(alloc, found)?;
        text.push_str(told.as_str())?;
    }
    Ok(text)
}

#[test]
fn the_rows_are_by_number(rt: HostRuntime) -> Result<(), Fail> {
    let alloc = rt.alloc();
    let mut table = PromptState::new(alloc);
    for row in [
        "9|begin|1|a b|1",
        "4|begin|2|new|2",
        "9|ask|1||ok",
        "9|done|1||ok",
    ] {
        let found = answer(alloc, &mut table, row)?;
        same_text(&rt, found.as_str(), cell(row, 4), row);
    }
    let found = all_rows(alloc, &table)?;
    same_text(
        &rt,
        found.as_str(),
        "3,asked 1 a/b 0,made 0 new 0",
        "the rows",
    );
    Ok(())
}

use crate::checks::{cell, same_text};
use crate::words::{joined, text_of};
use command_words::{CommandLine, read_words};
use itoa::Buffer;
use kr_base::Text;
use std::alloc::{AllocGlobal, Global};
use std::process::Abort;
use std::test::Fail;

// A command line, with one space before each word after the program's name, and what it means.
const LINES: &str = "\
keyringd stdio D 1000|stdio: D, 1000
keyringd stdio D 01000|invalid
keyringd serve D S|invalid
keyringd serve D S --uid 1 --uid 2|invalid
keyringd|invalid
keyringd serve --uid=1 D S|serve: D, S, 1
keyringd |invalid
keyringd D 1000|invalid
keyringd stdi D 1000|invalid
keyringd Stdio D 1000|invalid
keyringd stdio= D 1000|invalid
keyringd bus D 1000|invalid
keyringd --help|invalid
keyringd -- stdio D 1000|invalid
keyringd --uid 1 serve D S|invalid
keyringd stdio|invalid
keyringd stdio D|invalid
keyringd stdio D 1000 x|invalid
keyringd stdio  1000|stdio: , 1000
keyringd stdio D |invalid
keyringd stdio - 1000|stdio: -, 1000
keyringd stdio -D 1000|invalid
keyringd stdio D -1000|invalid
keyringd stdio D -|invalid
keyringd stdio \u{e9}/\u{20ac} 1000|stdio: \u{e9}/\u{20ac}, 1000
keyringd stdio /a/folder/whose/path/is/longer/than/24/bytes 1000|stdio: /a/folder/whose/path/is/longer/than/24/bytes, 1000
keyringd stdio -- -D 1000|stdio: -D, 1000
keyringd stdio D -- 1000|stdio: D, 1000
keyringd stdio D 1000 --|stdio: D, 1000
keyringd stdio -- -- 1000|stdio: --, 1000
keyringd stdio -- D -1|invalid
keyringd stdio -- D 1000 --|invalid
keyringd stdio D --uid 1000|invalid
keyringd stdio D 1000 --uid 1000|invalid
keyringd stdio D 1000 --connections=1|invalid
keyringd stdio -- --uid 1|stdio: --uid, 1
keyringd stdio D 0|stdio: D, 0
keyringd stdio D 00|invalid
keyringd stdio D 4294967295|stdio: D, 4294967295
keyringd stdio D 4294967296|invalid
keyringd stdio D 4294968296|invalid
keyringd stdio D +1|invalid
keyringd stdio D 1x|invalid
keyringd stdio D 0x10|invalid
keyringd stdio D \u{661}|invalid
keyringd serve D S --uid 1|serve: D, S, 1
keyringd serve D --uid 1 S|serve: D, S, 1
keyringd serve --uid 1 D S|serve: D, S, 1
keyringd serve D S --uid=1|serve: D, S, 1
keyringd serve --uid 1 -- D S|serve: D, S, 1
keyringd serve --uid 1 D -- S|serve: D, S, 1
keyringd serve --uid 1 -- D --connections|serve: D, --connections, 1
keyringd serve --uid 1 -- -- -|serve: --, -, 1
keyringd serve - - --uid 1|serve: -, -, 1
keyringd serve S D --uid 0|serve: S, D, 0
keyringd serve D --uid 1|invalid
keyringd serve --uid 1|invalid
keyringd serve D S T --uid 1|invalid
keyringd serve -- D S|invalid
keyringd serve D S -- --uid 1|invalid
keyringd serve D -S --uid 1|invalid
keyringd serve D S --uid|invalid
keyringd serve D S --uid --|invalid
keyringd serve D S --uid=|invalid
keyringd serve D S --uid |invalid
keyringd serve D S --uid =1|invalid
keyringd serve D S --uid = 1|invalid
keyringd serve D S --uid==1|invalid
keyringd serve D S --uid=1=|invalid
keyringd serve D S --uid=1 --uid=1|invalid
keyringd serve D S --uid 1 --uid=1|invalid
keyringd serve D S --uid --uid 1|invalid
keyringd serve D S --uid 01|invalid
keyringd serve D S --uid=+1|invalid
keyringd serve D S --uid -1|invalid
keyringd serve D S --uid 4294967295|serve: D, S, 4294967295
keyringd serve D S --uid 4294967296|invalid
keyringd serve D S --ui 1|invalid
keyringd serve D S --uidx 1|invalid
keyringd serve D S --uid1|invalid
keyringd serve D S --UID 1|invalid
keyringd serve D S -uid 1|invalid
keyringd serve D S -u 1|invalid
keyringd serve D S uid=1|invalid
keyringd serve D S --uid 1 --connections 3|serve: D, S, 1, 3
keyringd serve --connections=3 D --uid=1 S|serve: D, S, 1, 3
keyringd serve --connections 3 --uid 1 D S|serve: D, S, 1, 3
keyringd serve D S --connections 3|invalid
keyringd serve D S --uid 1 --connections 1|serve: D, S, 1, 1
keyringd serve D S --uid 1 --connections 0|invalid
keyringd serve D S --uid 1 --connections 03|invalid
keyringd serve D S --uid 1 --connections 18446744073709551615|serve: D, S, 1, 18446744073709551615
keyringd serve D S --uid 1 --connections 18446744073709551616|invalid
keyringd serve D S --uid 1 --connections|invalid
keyringd serve D S --uid 1 --connections=|invalid
keyringd serve D S --uid 1 --connections=3 --connections 3|invalid
keyringd serve D S --uid --connections 3|invalid
keyringd serve D S --uid 1 --connection 3|invalid
keyringd serve D S --uid 1 --until-eof|serve until eof: D, S, 1
keyringd serve --until-eof D S --uid 1|serve until eof: D, S, 1
keyringd serve D --until-eof S --connections 3 --uid 1|serve until eof: D, S, 1, 3
keyringd serve --uid 1 --until-eof -- D S|serve until eof: D, S, 1
keyringd serve --uid 1 -- D --until-eof|serve: D, --until-eof, 1
keyringd serve --uid 1 D S -- --until-eof|invalid
keyringd serve D S --uid 1 --until-eof --until-eof|invalid
keyringd serve D S --uid 1 --until-eof=1|invalid
keyringd serve D S --uid 1 --until-eof=|invalid
keyringd serve D S --uid 1 --until-eof 1|invalid
keyringd serve D S --uid --until-eof|invalid
keyringd serve D S --uid --until-eof 1|invalid
keyringd serve D S --until-eof|invalid
keyringd serve D S --uid 1 --until-eo|invalid
keyringd serve D S --uid 1 --until-eofx|invalid
keyringd serve D S --uid 1 --Until-eof|invalid
keyringd serve D S --uid 1 -until-eof|invalid
keyringd serve D S --uid 1 --password|invalid
keyringd serve D S --uid 1 --until-eof --password|invalid
keyringd stdio D 1000 --until-eof|invalid
keyringd stdio -- D --until-eof|invalid
keyringd --until-eof serve D S --uid 1|invalid
keyringd check D|check: D
keyringd check D --password|check: D, password
keyringd check --password D|check: D, password
keyringd check --password -- D|check: D, password
keyringd check -- --password|check: --password
keyringd check -- -D|check: -D
keyringd check D --|check: D
keyringd check -|check: -
keyringd check |check: 
keyringd check|invalid
keyringd check --password|invalid
keyringd check -D|invalid
keyringd check D E|invalid
keyringd check D -- --password|invalid
keyringd check D --password --password|invalid
keyringd check D --password=x|invalid
keyringd check D --password x|invalid
keyringd check D --until-eof|invalid
keyringd check D --uid 1|invalid
keyringd check D --connections=1|invalid
keyringd Check D|invalid
keyringd load 1 0|load: 1, 0
keyringd load 1000 18446744073709551615|load: 1000, 18446744073709551615
keyringd load 1000 18446744073709551616|invalid
keyringd load 1001 0|invalid
keyringd load 0 0|invalid
keyringd load 4294967297 0|invalid
keyringd load 01 0|invalid
keyringd load 1 00|invalid
keyringd load +1 0|invalid
keyringd load 1 -1|invalid
keyringd load 1|invalid
keyringd load 1 2 3|invalid
keyringd load -- 1 2|load: 1, 2
keyringd load 1 2 --|load: 1, 2
keyringd load 1 2 --uid 3|invalid
keyringd load 1 2 --password|invalid
keyringd load --items 1 2|invalid
";

// The words after the program's name.
fn words_of(alloc: Global, line: &str) -> Result<Vec<Text>, Fail> {
    let mut words = Vec::new(alloc);
    for word in line.split(' ').skip(1) {
        words.push(text_of(alloc, word)?)?;
    }
    Ok(words)
}

fn stdio_shown(alloc: Global, folder: &str, uid: u32) -> Result<String, Fail> {
    let mut buffer = Buffer::new();
    joined(alloc, &["stdio: ", folder, ", ", buffer.format(uid)])
}

fn serve_shown(
    alloc: Global,
    name: &str,
    operands: [&Text; 2],
    uid: u32,
    connections: Option<u64>,
) -> Result<String, Fail> {
    let mut buffer = Buffer::new();
    let [folder, socket] = operands;
    let uid = buffer.format(uid);
    let shown = joined(
        alloc,
        &[
            name,
            ": ",
            folder.as_str(),
            ", ",
            socket.as_str(),
            ", ",
            uid,
        ],
    )?;
    match connections {
        Some(number) => {
            let mut buffer = Buffer::new();
            joined(alloc, &[shown.as_str(), ", ", buffer.format(number)])
        }
        None => Ok(shown),
    }
}

fn load_shown(alloc: Global, items: u32, seed: u64) -> Result<String, Fail> {
    let mut first = Buffer::new();
    let mut second = Buffer::new();
    let items = first.format(items);
    joined(alloc, &["load: ", items, ", ", second.format(seed)])
}

fn shown(alloc: Global, line: &CommandLine) -> Result<String, Fail> {
    match line {
        CommandLine::Stdio { folder, uid } => stdio_shown(alloc, folder.as_str(), *uid),
        CommandLine::Serve {
            folder,
            socket,
            uid,
            connections,
        } => serve_shown(alloc, "serve", [folder, socket], *uid, *connections),
        CommandLine::ServeUntilEof {
            folder,
            socket,
            uid,
            connections,
        } => serve_shown(
            alloc,
            "serve until eof",
            [folder, socket],
            *uid,
            *connections,
        ),
        CommandLine::Load { items, seed } => load_shown(alloc, *items, *seed),
        CommandLine::Check { folder, password } => {
            let end = if *password { ", password" } else { "" };
            joined(alloc, &["check: ", folder.as_str(), end])
        }
    }
}

fn meaning(alloc: Global, line: &str) -> Result<String, Fail> {
    let words = words_of(alloc, line)?;
    match read_words(words.as_slice())? {
        Some(line) => shown(alloc, &line),
        None => Ok(String::from_str(alloc, "invalid")?),
    }
}

fn is_read(rt: &(impl AllocGlobal + Abort), row: &str) -> Result<(), Fail> {
    let found = meaning(rt.alloc(), cell(row, 0))?;
    same_text(rt, found.as_str(), cell(row, 1), row);
    Ok(())
}

#[test]
fn words_are_a_command_line_or_none(rt: HostRuntime) -> Result<(), Fail> {
    for row in LINES.lines() {
        is_read(&rt, row)?;
    }
    Ok(())
}

// Which signals match which rules (D-Bus Specification, "Match Rules").

use crate::checks::{number, same_text};
use bus_rules::{AddRefused, Key, MatchRule, MatchRules, Pair, Signal};
use kr_base::Bytes;
use std::alloc::Global;
use std::test::Fail;

// A row has the pairs of a rule, and the signals that match, or `no rule`.
const ROWS: &str = "\
type=signal => ABCD
 => ABCD
type=method_call => none
type=method_return => none
type=error => none
type=nothing => no rule
type= => no rule
sender=org.freedesktop.secrets => ABCD
sender=:1.0 => ABCD
sender=:1.1 => none
sender=org.freedesktop.DBus => none
interface=org.freedesktop.Secret.Collection => A
interface=org.freedesktop.DBus.Properties => B
interface=org.freedesktop.Secret => none
member=ItemCreated => A
member=Completed => C
member= => none
type=signal,interface=org.freedesktop.Secret.Collection,member=ItemCreated => A
type=signal,interface=org.freedesktop.Secret.Collection,member=ItemDeleted => none
path=/org/freedesktop/secrets => B
path=/org/freedesktop/secrets/collection/login => A
path=/ => none
path=/org/freedesktop/secrets/ => none
path_namespace=/org/freedesktop/secrets => ABC
path_namespace=/org/freedesktop/secret => none
path_namespace=/org/freedesktop/secrets/collection => A
path_namespace=/org/freedesktop/secrets/collection/login => A
path_namespace=/org/freedesktop/secrets/collection/login/1 => none
path_namespace=/ => ABCD
path=/a,path_namespace=/a => no rule
path_namespace=/a,path=/a => no rule
path=/a,path=/a => no rule
destination=:1.1 => none
destination=org.freedesktop.secrets => none
eavesdrop=true => ABCD
eavesdrop=false => ABCD
eavesdrop=yes => no rule
0=org.freedesktop.Secret.Service => B
0=x => D
0= => none
1=7 => none
2=/aa/bb/ => D
2=/aa/ => none
3= => D
4= => none
63=x => none
64=x => no rule
255=x => no rule
0=x,0=x => no rule
0=x,2=/aa/bb/ => D
0=x,2=y => none
type=signal,type=signal => no rule
type=signal,type=error => no rule
member=Told,member=Other => no rule
interface=a,interface=a => no rule
sender=a,sender=a => no rule
destination=a,destination=a => no rule
eavesdrop=true,eavesdrop=true => no rule
type=signal,sender=:1.0,interface=com.example.A,member=Told,path=/a,0=x,3= => D
type=signal,sender=:1.0,interface=com.example.A,member=Told,path=/a,0=x,3=y => none
path_namespace=/a,member=Told => D
path_namespace=,member=Told => D
";

fn key(name: &str) -> Result<Key, Fail> {
    Ok(match name {
        "type" => Key::MessageType,
        "sender" => Key::Sender,
        "interface" => Key::Interface,
        "member" => Key::Member,
        "path" => Key::Path,
        "path_namespace" => Key::PathNamespace,
        "destination" => Key::Destination,
        "eavesdrop" => Key::Eavesdrop,
        _ => Key::Argument(u8::try_from(number(name)?)?),
    })
}

// The rule of the pairs of a row.
fn rule(alloc: Global, text: &str) -> Result<Option<MatchRule>, Fail> {
    let mut pairs = Vec::new(alloc);
    for part in text.split_terminator(',') {
        let (name, value) = part.split_once('=').ok_or("a pair")?;
        let key = key(name)?;
        let value = Bytes::from_slice(alloc, value.as_bytes())?;
        pairs.push(Pair { key, value })?;
    }
    Ok(MatchRule::new(pairs))
}

fn signal(letter: char) -> Signal<'static> {
    match letter {
        'A' => Signal {
            path: b"/org/freedesktop/secrets/collection/login",
            interface: b"org.freedesktop.Secret.Collection",
            member: b"ItemCreated",
            arguments: &[None],
        },
        'B' => Signal {
            path: b"/org/freedesktop/secrets",
            interface: b"org.freedesktop.DBus.Properties",
            member: b"PropertiesChanged",
            arguments: &[Some(b"org.freedesktop.Secret.Service"), None, None],
        },
        'C' => Signal {
            path: b"/org/freedesktop/secrets/prompt/p1",
            interface: b"org.freedesktop.Secret.Prompt",
            member: b"Completed",
            arguments: &[None, None],
        },
        _ => Signal {
            path: b"/a",
            interface: b"com.example.A",
            member: b"Told",
            arguments: &[Some(b"x"), None, Some(b"/aa/bb/"), Some(b"")],
        },
    }
}

fn found(alloc: Global, row: &str) -> Result<String, Fail> {
    let mut text = String::new(alloc);
    match rule(alloc, row)? {
        Some(rule) => {
            for letter in "ABCD".chars() {
                if rule.matches(&signal(letter)) {
                    text.push(letter)?;
                }
            }
            if text.is_empty() {
                text.push_str("none")?;
            }
        }
        None => text.push_str("no rule")?,
    }
    Ok(text)
}

#[test]
fn rules_match_the_signals_that_their_pairs_hold_of(rt: HostRuntime) -> Result<(), Fail> {
    for row in ROWS.lines() {
        let (asked, want) = row.split_once(" => ").ok_or("row")?;
        let found = found(rt.alloc(), asked)?;
        same_text(&rt, found.as_str(), want, row);
    }
    Ok(())
}

// Rules that are added (`+`) and removed (`-`), and what each answers: whether ItemCreated matches one of
// the rules then, or that there was no such rule.
const CHANGES: &str = "\
+member=ItemCreated,type=signal => matches
+type=signal,member=ItemCreated => matches
+member=Told => matches
-member=ItemDeleted => no such rule
-type=signal => no such rule
-type=signal,member=ItemCreated => matches
-type=signal,member=ItemCreated => nothing matches
-type=signal,member=ItemCreated => no such rule
-member=Told => nothing matches
";

fn change(alloc: Global, rules: &mut MatchRules, row: &str) -> Result<&'static str, Fail> {
    let (sign, text) = row.split_at_checked(1).ok_or("a sign")?;
    let made = rule(alloc, text)?.ok_or("a rule")?;
    if sign == "+" {
        rules.add(made)?;
    } else if !rules.remove(&made) {
        return Ok("no such rule");
    }
    if rules.match_any(&signal('A')) {
        Ok("matches")
    } else {
        Ok("nothing matches")
    }
}

#[test]
fn one_equal_rule_is_removed(rt: HostRuntime) -> Result<(), Fail> {
    let mut rules = MatchRules::new(rt.alloc());
    for row in CHANGES.lines() {
        let (asked, want) = row.split_once(" => ").ok_or("row")?;
        let found = change(rt.alloc(), &mut rules, asked)?;
        same_text(&rt, found, want, row);
    }
    Ok(())
}

#[test]
fn a_513th_rule_is_refused(rt: HostRuntime) -> Result<(), Fail> {
    let mut rules = MatchRules::new(rt.alloc());
    for _ in 0..512 {
        let made = rule(rt.alloc(), "type=signal")?.ok_or("a rule")?;
        rules.add(made)?;
    }
    let made = rule(rt.alloc(), "type=signal")?.ok_or("a rule")?;
    let refused = rules.add(made).err();
    assert_eq!(rt; refused, Some(AddRefused::LimitsExceeded));
    Ok(())
}

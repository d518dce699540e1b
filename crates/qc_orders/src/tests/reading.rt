// Lines, and the orders that they are.
use crate::members::member_name;
use crate::text::{put, put_bytes, put_number, put_quoted};
use crate::{OrderError, is_blank, read_order};
use qc_base::NoMemory;
use qc_protocol::{Act, Order, RawArg, RawCall};
use std::alloc::Global;
use std::test::Fail;

/// The name of a member, a value of its kind, and another value.
type Part = (&'static str, &'static str, &'static str);

const AT: Part = ("at", "7", "\"7\"");

const CLIENT: Part = ("client", "3", "-3");

const PLAYER: Part = ("player", "3", "3.0");

const APP: Part = ("app", "\"A\"", "3");

const COMPONENT: Part = ("component", "\"C\"", "[\"C\"]");

// Each order: its members in the order in which they are looked at, and what is read.
const ORDERS: [(&[Part], &str); 15] = [
    (
        &[AT, ("do", "\"open\"", "\"Open\""), CLIENT, APP, COMPONENT],
        "7 open 3 A C",
    ),
    (
        &[
            AT,
            ("do", "\"call\"", "[\"call\"]"),
            CLIENT,
            ("method", "\"M\"", "null"),
            ("args", "[\"a\",4,null]", "{\"a\":4}"),
        ],
        "7 call 3 M \"a\" 4 ?;",
    ),
    (&[AT, ("do", "\"commit\"", "null"), CLIENT], "7 commit 3"),
    (&[AT, ("do", "\"cancel\"", "7"), CLIENT], "7 cancel 3"),
    (
        &[
            AT,
            ("do", "\"send\"", "\"\""),
            APP,
            COMPONENT,
            ("calls", "[[\"M\",4],[\"N\"]]", "[[\"M\",4],[4]]"),
        ],
        "7 send A C M 4; N;",
    ),
    (
        &[AT, ("do", "\"take\"", "\"takes\""), PLAYER, APP],
        "7 take 3 A",
    ),
    (&[AT, ("do", "\"play\"", "true"), PLAYER, APP], "7 play 3 A"),
    (&[AT, ("do", "\"work\"", "\" work\""), PLAYER], "7 work 3"),
    (&[AT, ("do", "\"end\"", "\"END\""), PLAYER], "7 end 3"),
    (
        &[AT, ("do", "\"phase\"", "\"\\u0000phase\""), PLAYER],
        "7 phase 3",
    ),
    (
        &[
            AT,
            ("do", "\"move\"", "{}"),
            ("from", "\"F\"", "0"),
            ("to", "\"T\"", "false"),
            ("batch", "18446744073709551615", "18446744073709551616"),
        ],
        "7 move F T 18446744073709551615",
    ),
    (
        &[
            AT,
            ("do", "\"switch\"", "\"switched\""),
            APP,
            ("on", "true", "\"true\""),
        ],
        "7 switch A on",
    ),
    (&[AT, ("do", "\"queues\"", "0"), APP], "7 queues A"),
    (
        &[
            AT,
            ("do", "\"table\"", "[]"),
            ("table", "\"T\"", "{\"T\":0}"),
        ],
        "7 table T",
    ),
    (
        &[
            AT,
            ("do", "\"outside\"", "\"inside\""),
            ("resource", "\"R\"", "null"),
        ],
        "7 outside R",
    ),
];

// Other lines, each with what is read or the member at fault.
const LINES: [(&str, &str); 44] = [
    ("", "line"),
    ("{", "line"),
    ("7", "line"),
    ("[]", "line"),
    ("[1]", "line"),
    ("null", "line"),
    ("nonsense", "line"),
    ("[{\"at\":0,\"do\":\"queues\",\"app\":\"A\"}]", "line"),
    ("{\"at\":0,\"do\":\"queues\",\"app\":\"A\"} {}", "line"),
    ("{\"at\":0,\"do\":\"queues\",\"app\":\"A\",}", "line"),
    ("{\"at\":0,\"do\":\"queues\",\"app\":\"\\ud800\"}", "line"),
    ("{}", "at"),
    ("{\"do\":7}", "at"),
    ("{\"at\":0}", "do"),
    (
        "{\"at\":0,\"do\":\"take\",\"player\":-1,\"app\":\"Orders\"}",
        "player",
    ),
    ("{\"at\":0,\"do\":\"work\",\"player\":-1,\"x\":0}", "player"),
    (
        "{\"at\":0,\"do\":\"work\",\"player\":0,\"client\":0}",
        "unknown",
    ),
    ("{\"at\":0,\"do\":\"work\",\"player\":0,\"\":0}", "unknown"),
    (
        "{\"at\":0,\"do\":\"queues\",\"app\":\"A\",\"App\":\"A\"}",
        "unknown",
    ),
    (
        "{\"at\":0,\"do\":\"queues\",\"app\":\"A\",\"component\":\"C\"}",
        "unknown",
    ),
    ("{\"at\":0,\"do\":\"queues\",\"app\":\"\"}", "0 queues "),
    (
        " { \"app\" : \"\\u0041\", \"do\":\"queues\",\"at\":1000000000000 }\r",
        "1000000000000 queues A",
    ),
    (
        "{\"at\":1000000000001,\"do\":\"queues\",\"app\":\"A\"}",
        "at",
    ),
    (
        "{\"at\":18446744073709551616,\"do\":\"queues\",\"app\":\"A\"}",
        "at",
    ),
    ("{\"at\":-0,\"do\":\"queues\",\"app\":\"A\"}", "at"),
    ("{\"at\":1.0,\"do\":\"queues\",\"app\":\"A\"}", "at"),
    ("{\"at\":1e0,\"do\":\"queues\",\"app\":\"A\"}", "at"),
    (
        "{\"at\":null,\"do\":\"stop\",\"app\":\"B\",\"app\":\"A\",\"at\":5,\"do\":\"queues\"}",
        "5 queues A",
    ),
    (
        "{\"at\":0,\"at\":null,\"do\":\"queues\",\"app\":\"A\"}",
        "at",
    ),
    (
        "{\"at\":0,\"do\":\"work\",\"player\":18446744073709551615}",
        "0 work 18446744073709551615",
    ),
    (
        "{\"at\":0,\"do\":\"work\",\"player\":18446744073709551616}",
        "player",
    ),
    (
        "{\"at\":0,\"do\":\"move\",\"from\":\"\",\"to\":\"\",\"batch\":0}",
        "0 move   0",
    ),
    (
        "{\"at\":0,\"do\":\"switch\",\"app\":\"A\",\"on\":false}",
        "0 switch A off",
    ),
    ("{\"at\":0,\"do\":\"switch\",\"app\":\"A\",\"on\":1}", "on"),
    (
        "{\"at\":0,\"do\":\"call\",\"client\":0,\"method\":\"\",\"args\":[]}",
        "0 call 0 ;",
    ),
    (
        "{\"at\":0,\"do\":\"call\",\"client\":0,\"method\":\"M\",\"args\":null}",
        "args",
    ),
    (
        "{\"at\":1,\"do\":\"send\",\"app\":\"A\",\"component\":\"C\",\"calls\":[]}",
        "1 send A C",
    ),
    (
        "{\"at\":1,\"do\":\"send\",\"app\":\"A\",\"component\":\"C\",\"calls\":[[\"M\"],[\"\",\"\"]]}",
        "1 send A C M;  \"\";",
    ),
    (
        "{\"at\":1,\"do\":\"send\",\"app\":\"A\",\"component\":\"C\",\"calls\":[[\"M\",0,-0,1.0,1e0,18446744073709551615,18446744073709551616,-1,true,null,[],{}]]}",
        "1 send A C M 0 ? ? ? 18446744073709551615 ? ? ? ? ? ?;",
    ),
    (
        "{\"at\":0,\"do\":\"send\",\"app\":\"A\",\"component\":\"C\",\"calls\":{}}",
        "calls",
    ),
    (
        "{\"at\":0,\"do\":\"send\",\"app\":\"A\",\"component\":\"C\",\"calls\":[[\"M\"],[]]}",
        "calls",
    ),
    (
        "{\"at\":0,\"do\":\"send\",\"app\":\"A\",\"component\":\"C\",\"calls\":[\"M\"]}",
        "calls",
    ),
    (
        "{\"at\":0,\"do\":\"send\",\"app\":\"A\",\"component\":\"C\",\"calls\":[[7]]}",
        "calls",
    ),
    (
        "{\"at\":0,\"do\":\"send\",\"component\":7,\"calls\":[],\"x\":0}",
        "app",
    ),
];

fn put_arg(out: &mut Vec<u8>, arg: &RawArg) -> Result<(), NoMemory> {
    put(out, " ")?;
    match arg {
        RawArg::Text(text) => put_quoted(out, text.as_slice()),
        RawArg::Whole(n) => put_number(out, *n),
        RawArg::Other => put(out, "?"),
    }
}

fn put_call(out: &mut Vec<u8>, call: &RawCall) -> Result<(), NoMemory> {
    put(out, " ")?;
    put_bytes(out, call.method.as_slice())?;
    for arg in call.args.as_slice() {
        put_arg(out, arg)?;
    }
    put(out, ";")
}

fn put_calls(out: &mut Vec<u8>, calls: &[RawCall]) -> Result<(), NoMemory> {
    for call in calls {
        put_call(out, call)?;
    }
    Ok(())
}

/// A word and a slot, with their spaces.
fn put_slot(out: &mut Vec<u8>, word: &str, slot: u64) -> Result<(), NoMemory> {
    put(out, word)?;
    put(out, " ")?;
    put_number(out, slot)
}

/// A text behind a space.
fn put_text(out: &mut Vec<u8>, text: &[u8]) -> Result<(), NoMemory> {
    put(out, " ")?;
    put_bytes(out, text)
}

/// A word and a text, with their spaces.
fn put_name(out: &mut Vec<u8>, word: &str, text: &[u8]) -> Result<(), NoMemory> {
    put(out, word)?;
    put_text(out, text)
}

fn put_act(out: &mut Vec<u8>, act: &Act) -> Result<(), NoMemory> {
    match act {
        Act::OpenSlot(client, app, component) => {
            put_slot(out, " open", *client)?;
            put_text(out, app.as_slice())?;
            put_text(out, component.as_slice())
        }
        Act::CallSlot(client, call) => {
            put_slot(out, " call", *client)?;
            put_call(out, call)
        }
        Act::CommitSlot(client) => put_slot(out, " commit", *client),
        Act::CancelSlot(client) => put_slot(out, " cancel", *client),
        Act::Send(app, component, calls) => {
            put_name(out, " send", app.as_slice())?;
            put_text(out, component.as_slice())?;
            put_calls(out, calls.as_slice())
        }
        Act::Take(player, app) => {
            put_slot(out, " take", *player)?;
            put_text(out, app.as_slice())
        }
        Act::Work(player) => put_slot(out, " work", *player),
        Act::End(player) => put_slot(out, " end", *player),
        Act::Phase(player) => put_slot(out, " phase", *player),
        Act::Play(player, app) => {
            put_slot(out, " play", *player)?;
            put_text(out, app.as_slice())
        }
        Act::Move(from, to, batch) => {
            put_name(out, " move", from.as_slice())?;
            put_text(out, to.as_slice())?;
            put_slot(out, "", *batch)
        }
        Act::Switch(app, on) => {
            put_name(out, " switch", app.as_slice())?;
            put(out, if *on { " on" } else { " off" })
        }
        Act::Queues(app) => put_name(out, " queues", app.as_slice()),
        Act::Table(table) => put_name(out, " table", table.as_slice()),
        Act::Outside(resource) => put_name(out, " outside", resource.as_slice()),
    }
}

fn put_order(out: &mut Vec<u8>, order: &Order) -> Result<(), NoMemory> {
    put_number(out, order.at.get())?;
    put_act(out, &order.act)
}

/// What was read of a line, or the member at fault.
fn told(alloc: Global, line: &[u8]) -> Result<Vec<u8>, NoMemory> {
    let mut out = Vec::new(alloc);
    match read_order(alloc, line) {
        Ok(order) => put_order(&mut out, &order)?,
        Err(OrderError::Malformed(member)) => put(&mut out, member_name(member))?,
        Err(OrderError::LineTooLong) => put(&mut out, "too long")?,
        Err(OrderError::NoMemory) => return Err(NoMemory),
    }
    Ok(out)
}

/// A line of such parts, where one may be left out, one may be wrong, and one may be too many.
#[derive(Clone, Copy)]
struct Line {
    parts: &'static [Part],
    left_out: usize,
    wrong: usize,
    more: bool,
}

fn put_member(out: &mut Vec<u8>, name: &str, value: &str) -> Result<(), NoMemory> {
    put(out, if out.is_empty() { "{\"" } else { ",\"" })?;
    put(out, name)?;
    put(out, "\":")?;
    put(out, value)
}

impl Line {
    fn text(&self, alloc: Global) -> Result<Vec<u8>, NoMemory> {
        let mut out = Vec::new(alloc);
        if self.more {
            put_member(&mut out, "more", "0")?;
        }
        for (i, (name, right, wrong)) in self.parts.iter().enumerate() {
            if i != self.left_out {
                put_member(&mut out, name, if i == self.wrong { wrong } else { right })?;
            }
        }
        put(&mut out, "}")?;
        Ok(out)
    }

    /// The first part that is left out or wrong, or else the one too many, or else what is read.
    fn want(&self, whole: &'static str) -> &'static str {
        match self.parts.get(self.left_out.min(self.wrong)) {
            Some((name, _, _)) => name,
            None if self.more => "unknown",
            None => whole,
        }
    }

    fn is_told(&self, alloc: Global, whole: &'static str) -> Result<bool, NoMemory> {
        let text = self.text(alloc)?;
        let told = told(alloc, text.as_slice())?;
        Ok(told.as_slice() == self.want(whole).as_bytes())
    }
}

fn are_told(
    alloc: Global,
    parts: &'static [Part],
    whole: &'static str,
    left_out: usize,
) -> Result<bool, NoMemory> {
    for wrong in 0..=parts.len() {
        for more in [false, true] {
            let line = Line {
                parts,
                left_out,
                wrong,
                more,
            };
            if !line.is_told(alloc, whole)? {
                return Ok(false);
            }
        }
    }
    Ok(true)
}

#[test]
fn each_order_is_read_or_the_first_member_at_fault_is_told(rt: HostRuntime) -> Result<(), Fail> {
    for (parts, whole) in ORDERS {
        for left_out in 0..=parts.len() {
            assert!(rt;
                are_told(rt.alloc(), parts, whole, left_out)?,
                "{whole} {left_out}"
            );
        }
    }
    Ok(())
}

#[test]
fn lines_are_read_or_the_member_at_fault_is_told(rt: HostRuntime) -> Result<(), Fail> {
    for (line, want) in LINES {
        let told = told(rt.alloc(), line.as_bytes())?;
        assert!(rt; told.as_slice() == want.as_bytes(), "{line}");
    }
    let no_text = b"{\"at\":0,\"do\":\"queues\",\"app\":\"\xff\"}";
    assert!(rt; told(rt.alloc(), no_text)?.as_slice() == "line".as_bytes());
    Ok(())
}

/// An order with so many lists within one another in place of an argument.
fn nested(alloc: Global, lists: usize) -> Result<Vec<u8>, NoMemory> {
    let mut line = Vec::new(alloc);
    put(
        &mut line,
        "{\"at\":0,\"do\":\"send\",\"app\":\"A\",\"component\":\"C\",\"calls\":[[\"M\",",
    )?;
    for _ in 0..lists {
        put(&mut line, "[")?;
    }
    for _ in 0..lists {
        put(&mut line, "]")?;
    }
    put(&mut line, "]]}")?;
    Ok(line)
}

#[test]
fn a_line_nests_127_deep(rt: HostRuntime) -> Result<(), Fail> {
    let line = nested(rt.alloc(), 124)?;
    assert!(rt; told(rt.alloc(), line.as_slice())?.as_slice() == "0 send A C M ?;".as_bytes());
    let line = nested(rt.alloc(), 125)?;
    assert!(rt; told(rt.alloc(), line.as_slice())?.as_slice() == "line".as_bytes());
    Ok(())
}

/// An order behind so many spaces.
fn spaced(alloc: Global, spaces: usize) -> Result<Vec<u8>, NoMemory> {
    let mut line = Vec::new(alloc);
    for _ in 0..spaces {
        put(&mut line, " ")?;
    }
    put(&mut line, "{\"at\":0,\"do\":\"work\",\"player\":1}")?;
    Ok(line)
}

#[test]
fn a_line_has_65536_bytes_at_the_most(rt: HostRuntime) -> Result<(), Fail> {
    let line = spaced(rt.alloc(), 65_505)?;
    assert_eq!(rt; line.len(), 65_536);
    assert!(rt; told(rt.alloc(), line.as_slice())?.as_slice() == "0 work 1".as_bytes());
    let line = spaced(rt.alloc(), 65_506)?;
    assert!(rt; told(rt.alloc(), line.as_slice())?.as_slice() == "too long".as_bytes());
    Ok(())
}

#[test]
fn blank_lines_are_told(rt: HostRuntime) {
    for (line, blank) in [
        ("", true),
        (" \t\r ", true),
        ("\n", false),
        ("  {}", false),
        ("\u{a0}", false),
    ] {
        assert_eq!(rt; is_blank(line.as_bytes()), blank, "{line:?}");
    }
}

// Refusals as text.
ghost use Rattle.std.specs.Prelude.{◌≡◌, ◌++◌, OnOk, codes, decimal};
ghost use Rattle.qc_protocol.specs.Refusals.{stage_text, side_text, moment_text, refusal_text};

use crate::members::member_name;
use crate::text::{put, put_number, put_numbered, put_pair, put_two};
use qc_base::{Moment, NoMemory, Stage};
use qc_protocol::{Refusal, Side};

fn stage_name(stage: Stage) -> &'static str
    ensures { result.now ≡ stage_text stage }
{
    match stage {
        Stage::Calls => "calls",
        Stage::Ready => "ready",
        Stage::Failing => "failing",
        Stage::Commit => "commit",
        Stage::Abort => "abort",
    }
}

fn side_name(side: Side) -> &'static str
    ensures { result.now ≡ side_text side }
{
    match side {
        Side::From => "from",
        Side::To => "to",
    }
}

fn put_moment(out: &mut Vec<u8>, moment: Option<Moment>) -> Result<(), NoMemory>
    ensures { OnOk result (out.new.items ≡ out.old.items ++ moment_text moment) }
{
    match moment {
        Some(at) => put_number(out, at.get()),
        None => put(out, "none"),
    }
}

/// A word, with its spaces, the next due moment, and the count of blocked messages.
fn put_due(
    out: &mut Vec<u8>,
    word: &str,
    earliest: Option<Moment>,
    blocked: u64,
) -> Result<(), NoMemory>
    ensures { OnOk result (out.new.items
        ≡ out.old.items ++ (word.now ++ moment_text earliest ++ codes " blocked " ++ decimal blocked)) }
{
    put(out, word)?;
    put_moment(out, earliest)?;
    put_numbered(out, " blocked ", blocked)
}

pub fn put_refusal(out: &mut Vec<u8>, refusal: &Refusal) -> Result<(), NoMemory>
    ensures { OnOk result (out.new.items ≡ out.old.items ++ refusal_text refusal.now) }
{
    match *refusal {
        Refusal::LineTooLong => put(out, "1 LineTooLong"),
        Refusal::Malformed(member) => put_two(out, "2 Malformed ", member_name(member)),
        Refusal::NotBuilt => put(out, "3 NotBuilt"),
        Refusal::NoSuchSlot(slot) => put_numbered(out, "4 NoSuchSlot ", slot),
        Refusal::SlotBusy(n) => put_numbered(out, "5 SlotBusy ", n),
        Refusal::SlotIdle => put(out, "6 SlotIdle"),
        Refusal::Over(began, now) => put_pair(out, "7 Over ", began, " ", now),
        Refusal::WrongStage(stage) => put_two(out, "8 WrongStage ", stage_name(stage)),
        Refusal::UnknownApp => put(out, "9 UnknownApp"),
        Refusal::UnknownComponent => put(out, "10 UnknownComponent"),
        Refusal::UnknownMethod(call) => put_numbered(out, "11 UnknownMethod ", call),
        Refusal::BadArguments(call, place) => put_pair(out, "12 BadArguments ", call, " ", place),
        Refusal::TooManyCalls => put(out, "13 TooManyCalls"),
        Refusal::TooLong(size) => put_numbered(out, "14 TooLong ", size),
        Refusal::UnknownQueue(side) => put_two(out, "15 UnknownQueue ", side_name(side)),
        Refusal::BadBatch => put(out, "16 BadBatch"),
        Refusal::UnknownTable => put(out, "17 UnknownTable"),
        Refusal::TooManyMessages(limit) => put_numbered(out, "18 TooManyMessages ", limit),
        Refusal::SwitchedOff => put(out, "19 SwitchedOff"),
        Refusal::NothingDue(earliest, blocked) => {
            put_due(out, "20 NothingDue earliest ", earliest, blocked)
        }
        Refusal::Full(size) => put_numbered(out, "21 Full ", size),
    }
}

// Notices and reasons as text.
ghost use Rattle.std.specs.Prelude.{◌≡◌, ◌++◌, OnOk, codes};
ghost use Rattle.qc_protocol.specs.Texts.{kind_text, bool_text, outcome_text, heard_text, notice_text, notices_text, why_text};

use crate::text::{Show, put, put_between, put_bytes, put_joined, put_numbered};
use qc_base::{Heard, Kind, NoMemory, Notice, Notices, Why};

pub fn kind_name(kind: Kind) -> &'static str
    ensures { result.now ≡ kind_text kind }
{
    match kind {
        Kind::Normal => "normal",
        Kind::Final => "final",
    }
}

pub fn outcome_name(committed: bool) -> &'static str
    ensures { result.now ≡ outcome_text committed }
{
    if committed { "commit" } else { "abort" }
}

fn put_flagged(out: &mut Vec<u8>, word: &str, flag: bool) -> Result<(), NoMemory>
    ensures { OnOk result (out.new.items ≡ out.old.items ++ (word.now ++ bool_text flag)) }
{
    put(out, word)?;
    put(out, if flag { "true" } else { "false" })
}

impl Show for Heard {
    ghost text = { heard_text };

    fn show(&self, out: &mut Vec<u8>) -> Result<(), NoMemory> {
        match *self {
            Heard::BeginPrepare => put(out, "BeginPrepare"),
            Heard::PrepareRecord(seq, true) => {
                put_between(out, "PrepareRecord ", u64::from(seq), " forget")
            }
            Heard::PrepareRecord(seq, false) => {
                put_between(out, "PrepareRecord ", u64::from(seq), " keep")
            }
            Heard::EndPrepare(true) => put(out, "EndPrepare ready"),
            Heard::EndPrepare(false) => put(out, "EndPrepare notready"),
            Heard::BeginCommit(recovery) => put_flagged(out, "BeginCommit ", recovery),
            Heard::CommitRecord(seq) => put_numbered(out, "CommitRecord ", u64::from(seq)),
            Heard::EndCommit => put(out, "EndCommit"),
            Heard::BeginAbort(recovery) => put_flagged(out, "BeginAbort ", recovery),
            Heard::AbortRecord(seq) => put_numbered(out, "AbortRecord ", u64::from(seq)),
            Heard::EndAbort => put(out, "EndAbort"),
        }
    }
}

impl Show for Notice {
    ghost text = { notice_text };

    fn show(&self, out: &mut Vec<u8>) -> Result<(), NoMemory> {
        put_bytes(out, self.resource.as_bytes())?;
        put(out, " ")?;
        self.heard.show(out)
    }
}

pub fn put_notices(out: &mut Vec<u8>, notices: &Notices) -> Result<(), NoMemory>
    ensures { OnOk result (out.new.items ≡ out.old.items ++ notices_text notices.now) }
{
    let notices = notices.as_slice();
    if notices.is_empty() {
        return put(out, "-");
    }
    put_joined(out, notices)
}

/// A colon, a space, and the notices.
pub fn put_heard(out: &mut Vec<u8>, notices: &Notices) -> Result<(), NoMemory>
    ensures { OnOk result (out.new.items ≡ out.old.items ++ (codes ": " ++ notices_text notices.now)) }
{
    put(out, ": ")?;
    put_notices(out, notices)
}

pub fn put_why(out: &mut Vec<u8>, why: &Why) -> Result<(), NoMemory>
    ensures { OnOk result (out.new.items ≡ out.old.items ++ why_text why.now) }
{
    match why {
        Why::Step(call, step) => {
            put_numbered(out, "call ", u64::from(*call))?;
            put_numbered(out, " step ", u64::from(*step))
        }
        Why::Forced => put(out, "forced"),
        Why::NotReady(resource) => {
            put(out, "notready ")?;
            put_bytes(out, resource.as_bytes())
        }
    }
}

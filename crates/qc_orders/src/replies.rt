// Replies as text.
ghost use Rattle.std.specs.Prelude.{◌≡◌, ◌++◌, IfOk, OnOk, codes, decimal};
ghost use Rattle.qc_protocol.specs.Texts.{attempt_text, kind_text, notices_text, reply_text, recovered_text};

use crate::listings::{put_queues, put_rows};
use crate::notices::{kind_name, outcome_name, put_heard, put_why};
use crate::refusals::put_refusal;
use crate::text::{put, put_bytes, put_numbered, put_pair};
use qc_base::{Kind, NoMemory, Notices, Recovered};
use qc_protocol::Reply;
use std::alloc::Global;

/// An attempt's number, with its spaces.
fn put_attempt(out: &mut Vec<u8>, attempt: u64) -> Result<(), NoMemory>
    ensures { OnOk result (out.new.items ≡ out.old.items ++ attempt_text attempt) }
{
    put_numbered(out, " attempt ", attempt)?;
    put(out, " ")
}

/// A message's number, and the number and the kind of its attempt.
fn put_played(
    out: &mut Vec<u8>,
    word: &str,
    id: u64,
    attempt: u64,
    kind: Kind,
) -> Result<(), NoMemory>
    ensures { OnOk result (out.new.items ≡ out.old.items ++ (word.now ++ decimal id ++ attempt_text attempt ++ kind_text kind)) }
{
    put_numbered(out, word, id)?;
    put_attempt(out, attempt)?;
    put(out, kind_name(kind))
}

/// A word, with its spaces, an attempt's number, and what was heard.
fn put_committed(
    out: &mut Vec<u8>,
    word: &str,
    attempt: u64,
    notices: &Notices,
) -> Result<(), NoMemory>
    ensures { OnOk result (out.new.items ≡ out.old.items ++ (word.now ++ decimal attempt ++ codes ": " ++ notices_text notices.now)) }
{
    put_numbered(out, word, attempt)?;
    put_heard(out, notices)
}

fn put_reply(out: &mut Vec<u8>, reply: &Reply) -> Result<(), NoMemory>
    ensures { OnOk result (out.new.items ≡ out.old.items ++ reply_text reply.now) }
{
    match reply {
        Reply::Opened => put(out, "opened"),
        Reply::Recorded(n) => put_numbered(out, "recorded ", *n),
        Reply::Sent(id) => put_numbered(out, "sent ", *id),
        Reply::SentNothing => put(out, "sent nothing"),
        Reply::Cancelled(n) => put_numbered(out, "cancelled ", *n),
        Reply::Taken(id, attempt, kind, calls) => {
            put_played(out, "taken ", *id, *attempt, *kind)?;
            put_numbered(out, " calls ", *calls)
        }
        Reply::Worked(call, left) => {
            put_pair(out, "worked call ", u64::from(*call), " left ", *left)
        }
        Reply::StepFailed(call, step) => {
            put_pair(
                out,
                "failed call ",
                u64::from(*call),
                " step ",
                u64::from(*step),
            )
        }
        Reply::Committed(attempt, notices) => {
            put_committed(out, "committed attempt ", *attempt, notices)
        }
        Reply::NotCommitted(attempt, why, notices) => {
            put(out, "failed")?;
            put_attempt(out, *attempt)?;
            put_why(out, why)?;
            put_heard(out, notices)
        }
        Reply::Finished(attempt, committed, notices) => {
            put(out, "finished")?;
            put_attempt(out, *attempt)?;
            put(out, outcome_name(*committed))?;
            put_heard(out, notices)
        }
        Reply::Played(id, attempt, kind, notices) => {
            put_played(out, "played ", *id, *attempt, *kind)?;
            put(out, " commit")?;
            put_heard(out, notices)
        }
        Reply::PlayFailed(id, attempt, kind, why, notices) => {
            put_played(out, "played ", *id, *attempt, *kind)?;
            put(out, " failed ")?;
            put_why(out, why)?;
            put_heard(out, notices)
        }
        Reply::Moved(n) => put_numbered(out, "moved ", *n),
        Reply::Switched(app, on) => {
            put(out, "switched ")?;
            put_bytes(out, app.as_bytes())?;
            put(out, if *on { " on" } else { " off" })
        }
        Reply::Queues(app, queues, dead, consumed) => {
            put(out, "queues ")?;
            put_queues(out, app, queues, dead)?;
            put_numbered(out, "; consumed ", *consumed)
        }
        Reply::Table(name, rows, total) => {
            put(out, "table ")?;
            put_rows(out, name, rows, *total)
        }
        Reply::Outside(name, rows, total) => {
            put(out, "outside ")?;
            put_rows(out, name, rows, *total)
        }
        Reply::Refused(refusal) => {
            put(out, "refused ")?;
            put_refusal(out, refusal)
        }
    }
}

/// The text of a reply, without a newline (docs/FORMATS.md, "Reply lines"). The one error is want of
/// memory.
pub fn print_reply(alloc: Global, reply: &Reply) -> Result<Vec<u8>, NoMemory>
    ensures { IfOk result (λ v. v.items ≡ reply_text reply.now) }
{
    let mut out = Vec::new(alloc);
    put_reply(&mut out, reply)?;
    Ok(out)
}

/// The text of an attempt that a recovery has ended, without a newline (docs/FORMATS.md,
/// "Reply lines"). The one error is want of memory.
pub fn print_recovered(alloc: Global, what: &Recovered) -> Result<Vec<u8>, NoMemory>
    ensures { IfOk result (λ v. v.items ≡ recovered_text what.now) }
{
    let mut out = Vec::new(alloc);
    put(&mut out, "recovered")?;
    put_attempt(&mut out, what.attempt)?;
    put(&mut out, outcome_name(what.committed))?;
    put_heard(&mut out, &what.notices)?;
    Ok(out)
}

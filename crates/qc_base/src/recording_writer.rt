// Recordings to bytes.
ghost use Rattle.std.specs.Prelude.{◌≡◌, ◌++◌, ◌+◌, ◌≤◌, length, true, IfOk, vec_len, vec_capacity};
ghost use Rattle.qc_base.specs.Spelling.{spelled_arg, spelled_args, spelled_call, spelled_calls, spelled_recording, is_call, are_calls, is_recording};

use crate::number::NoMemory;
use crate::recording::{Arg, Call, Recording};
use crate::writer::{put_name, put_text, put_u64};
use std::alloc::Global;

/// The spelling of a recording (docs/FORMATS.md, "Recording"). The recording is within the limits of
/// that section.
pub fn write_recording(alloc: Global, recording: &Recording) -> Result<Vec<u8>, NoMemory>
    requires { is_recording recording.now ≡ true }
    ensures { IfOk result (λ bytes. bytes.items ≡ spelled_recording recording.now) }
{
    let mut bytes = Vec::with_capacity(alloc, recording.size()).map_err(|_| NoMemory)?;
    put_recording(&mut bytes, recording);
    Ok(bytes)
}

/// Appends the spelling of a recording within the limits (docs/FORMATS.md, "Recording"). There is room
/// for it, so this takes no memory.
pub fn put_recording(out: &mut Vec<u8>, recording: &Recording)
    requires limits { is_recording recording.now ≡ true }
    requires room { vec_len out.old + length (spelled_recording recording.now) ≤ vec_capacity out.old }
    ensures bytes { out.new.items ≡ out.old.items ++ spelled_recording recording.now }
    ensures len { vec_len out.new ≡ vec_len out.old + length (spelled_recording recording.now) }
    ensures room { vec_capacity out.old ≤ vec_capacity out.new }
{
    put_name(out, &recording.app);
    put_name(out, &recording.component);
    put_calls(out, recording.calls.as_slice());
}

fn put_calls(out: &mut Vec<u8>, calls: &[Call])
    requires limits { are_calls calls.now ≡ true }
    requires room { vec_len out.old + length (spelled_calls calls.now) ≤ vec_capacity out.old }
    ensures bytes { out.new.items ≡ out.old.items ++ spelled_calls calls.now }
    ensures room { vec_capacity out.old ≤ vec_capacity out.new }
{
    out.push_reserved(calls.len() as u8);
    for call in calls {
        put_call(out, call);
    }
}

fn put_call(out: &mut Vec<u8>, call: &Call)
    requires limits { is_call call.now ≡ true }
    requires room { vec_len out.old + length (spelled_call call.now) ≤ vec_capacity out.old }
    ensures bytes { out.new.items ≡ out.old.items ++ spelled_call call.now }
    ensures room { vec_capacity out.old ≤ vec_capacity out.new }
{
    put_name(out, &call.method);
    put_args(out, call.args.as_slice());
}

fn put_args(out: &mut Vec<u8>, args: &[Arg])
    requires limits { length args.now ≤ 16 }
    requires room { vec_len out.old + length (spelled_args args.now) ≤ vec_capacity out.old }
    ensures bytes { out.new.items ≡ out.old.items ++ spelled_args args.now }
    ensures room { vec_capacity out.old ≤ vec_capacity out.new }
{
    out.push_reserved(args.len() as u8);
    for arg in args {
        put_arg(out, arg);
    }
}

#[tactic(auto, using(crate::proofs::Bytes::byte_counts))]
fn put_arg(out: &mut Vec<u8>, arg: &Arg)
    requires { vec_len out.old + length (spelled_arg arg.now) ≤ vec_capacity out.old }
    ensures bytes { out.new.items ≡ out.old.items ++ spelled_arg arg.now }
    ensures room { vec_capacity out.old ≤ vec_capacity out.new }
{
    match arg {
        Arg::Text(text) => {
            out.push_reserved(1);
            put_text(out, text);
        }
        Arg::Whole(amount) => {
            out.push_reserved(2);
            put_u64(out, amount.get());
        }
    }
}

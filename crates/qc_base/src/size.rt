// How many bytes a recording's spelling has.
ghost use Rattle.std.specs.Prelude.{◌≡◌, ◌≤◌, ◌^◌, length, flat_map};
ghost use Rattle.qc_base.specs.Spelling.{spelled_arg, spelled_call, spelled_recording};

use crate::recording::{Arg, Call, Recording};

#[tactic(auto, using(crate::proofs::Bytes::byte_counts))]
fn arg_size(arg: &Arg) -> usize
    ensures { result ≡ length (spelled_arg arg.now) }
{
    match arg {
        Arg::Text(text) => 2 + text.as_bytes().len(),
        Arg::Whole(_) => 9,
    }
}

fn args_size(args: &[Arg]) -> usize
    requires { length (flat_map spelled_arg args.now) ≤ 2 ^ 32 }
    ensures { result ≡ length (flat_map spelled_arg args.now) }
{
    let mut size = 0;
    for arg in args {
        size += arg_size(arg);
    }
    size
}

fn call_size(call: &Call) -> usize
    requires { length (spelled_call call.now) ≤ 2 ^ 32 }
    ensures { result ≡ length (spelled_call call.now) }
{
    2 + call.method.as_bytes().len() + args_size(call.args.as_slice())
}

fn calls_size(calls: &[Call]) -> usize
    requires { length (flat_map spelled_call calls.now) ≤ 2 ^ 32 }
    ensures { result ≡ length (flat_map spelled_call calls.now) }
{
    let mut size = 0;
    for call in calls {
        size += call_size(call);
    }
    size
}

impl Recording {
    /// The length of the spelling in bytes, also where it is past the limit of 16,384 (docs/FORMATS.md, "Recording").
    pub fn size(&self) -> usize
        requires { length (spelled_recording self.now) ≤ 2 ^ 32 }
        ensures { result ≡ length (spelled_recording self.now) }
    {
        3 + self.app.as_bytes().len()
            + self.component.as_bytes().len()
            + calls_size(self.calls.as_slice())
    }
}

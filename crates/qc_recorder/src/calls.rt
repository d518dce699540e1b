// One call: as a method takes it, its size, and the list with it.
ghost use Rattle.std.specs.Prelude.{◌≡◌, ◌≤◌, ◌++◌, ◌∷◌, [], length, map, true, option_map, flat_map, IfOk};
ghost use Rattle.std.specs.List.{list_all};
ghost use Rattle.qc_base.specs.Spelling.{is_arg, is_call, spelled_arg, spelled_call};
ghost use Rattle.qc_recorder.specs.Answers.{Tells};
ghost use Rattle.qc_recorder.specs.Fits.{call_by};

use crate::arguments::take_arguments;
use crate::error::RecordError;
use qc_base::{Arg, Call, Calls, NoMemory};
use qc_catalogue::Method;
use qc_protocol::{RawArg, Refusal};
use std::alloc::Global;

const MOST_ARGUMENTS: usize = 16;

/// The call with this number, as a method takes it, or the refusal of the method or of its first argument at fault
/// (docs/RULES.md, "Recording").
pub fn take_call(
    alloc: Global,
    method: Option<&Method>,
    number: u64,
    args: &[RawArg],
) -> Result<Call, RecordError>
    ensures taken { Tells result (call_by number args.now (option_map (λ m. m.now) method.entry)) }
    ensures limits { IfOk result (λ call. (length call.args ≤ 16) × (list_all is_arg call.args ≡ true)) }
{
    let Some(method) = method else {
        return Err(RecordError::Refused(Refusal::UnknownMethod(number)));
    };
    let params = method.params.as_slice();
    if params.len() > MOST_ARGUMENTS {
        return Err(RecordError::Refused(Refusal::BadArguments(number, 17)));
    }
    match take_arguments(alloc, number, params, args) {
        Ok(args) => Ok(Call {
            method: method.name,
            args,
        }),
        Err(error) => Err(error),
    }
}

#[tactic(auto, using(qc_base::proofs::Bytes::byte_counts))]
fn argument_size(arg: &Arg) -> usize
    ensures size { result ≡ length (spelled_arg arg.now) }
    ensures bound { result ≤ 66 }
{
    match arg {
        Arg::Text(text) => 2 + text.as_bytes().len(),
        Arg::Whole(_) => 9,
    }
}

fn arguments_size(args: &[Arg]) -> usize
    requires { length args.now ≤ 16 }
    ensures size { result ≡ length (flat_map spelled_arg args.now) }
    ensures bound { result ≤ 1056 }
{
    let mut size = 0;
    for arg in args {
        size += argument_size(arg);
    }
    size
}

/// The length of a call's spelling in bytes (docs/FORMATS.md, "Recording").
pub fn call_size(call: &Call) -> usize
    requires few { length call.now.args ≤ 16 }
    requires limits { list_all is_arg call.now.args ≡ true }
    ensures size { result ≡ length (spelled_call call.now) }
    ensures bound { result ≤ 1090 }
    ensures limits { is_call call.now ≡ true }
{
    2 + call.method.as_bytes().len() + arguments_size(call.args.as_slice())
}

/// These calls and one more behind them. The error is want of memory.
pub fn with_call(alloc: Global, calls: &[Call], call: Call) -> Result<Calls, NoMemory>
    requires { length calls.now ≤ 64 }
    ensures { IfOk result (λ more. more ≡ calls.now ++ call ∷ []) }
{
    let mut items = Vec::with_capacity(alloc, calls.len() + 1).map_err(|_| NoMemory)?;
    for held in calls {
        let copied = held.copy(alloc)?;
        items.push(copied).map_err(|_| NoMemory)?;
    }
    items.push(call).map_err(|_| NoMemory)?;
    Ok(Calls::over(items))
}

// The arguments of a call, by the parameters of its method.
ghost use Rattle.std.specs.Prelude.{◌≡◌, ◌≤◌, length, true, IfOk};
ghost use Rattle.std.specs.List.{list_all};
ghost use Rattle.qc_base.specs.Spelling.{is_arg};
ghost use Rattle.qc_recorder.specs.Answers.{Tells};
ghost use Rattle.qc_recorder.specs.Fits.{argument, arguments};

use crate::error::RecordError;
use qc_base::{Amount, Arg, Args, Text};
use qc_catalogue::{Param, ParamKind};
use qc_protocol::{RawArg, Refusal};
use std::alloc::Global;

fn take_argument(kind: ParamKind, arg: &RawArg) -> Option<Arg>
    ensures { result ≡ argument kind arg.now }
{
    match (kind, arg) {
        (ParamKind::Text, RawArg::Text(word)) => Some(Arg::Text(Text::read(word.as_slice())?)),
        (ParamKind::Whole, RawArg::Whole(number)) => Some(Arg::Whole(Amount::new(*number)?)),
        _ => None,
    }
}

/// The arguments of the call with this number, or the refusal of the first that isn't of its parameter's kind, is
/// missing or is one too many (docs/RULES.md, "Recording").
pub fn take_arguments(
    alloc: Global,
    call: u64,
    params: &[Param],
    args: &[RawArg],
) -> Result<Args, RecordError>
    requires { length params.now ≤ 16 }
    ensures taken { Tells result (arguments call 1 params.now args.now) }
    ensures limits { IfOk result (λ taken. (length taken ≤ 16) × (list_all is_arg taken ≡ true)) }
{
    let Ok(mut taken) = Vec::with_capacity(alloc, params.len()) else {
        return Err(RecordError::NoMemory);
    };
    for index in 0..params.len() {
        let place = index as u64 + 1;
        let Some(arg) = args.get(index) else {
            return Err(RecordError::Refused(Refusal::BadArguments(call, place)));
        };
        let Some(arg) = take_argument(params[index].kind, arg) else {
            return Err(RecordError::Refused(Refusal::BadArguments(call, place)));
        };
        let Ok(()) = taken.push(arg) else {
            return Err(RecordError::NoMemory);
        };
    }
    if args.len() > params.len() {
        let place = params.len() as u64 + 1;
        return Err(RecordError::Refused(Refusal::BadArguments(call, place)));
    }
    Ok(Args::over(taken))
}

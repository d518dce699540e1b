// Calls and their arguments, as a line has them.
ghost use Rattle.std.specs.Prelude.{◌≡◌, IfOk, option_and_then};
ghost use Rattle.serde_json.specs.Find.{as_array};
ghost use Rattle.serde_json.specs.View.{view, items_view};
ghost use Rattle.qc_orders.specs.Orders.{arg_of, args_of, args_in, call_in, call_of, calls_of, calls_in};

use qc_base::{NoMemory, Word};
use qc_protocol::{RawArg, RawArgs, RawCall, RawCalls};
use serde_json::Value;
use std::alloc::Global;

pub fn copied(alloc: Global, text: &str) -> Result<Word, NoMemory>
    ensures { IfOk result (λ w. w ≡ text.now) }
{
    let bytes = Vec::from_slice(alloc, text.as_bytes()).map_err(|_| NoMemory)?;
    Ok(Word::over(bytes))
}

fn read_arg(alloc: Global, value: &Value) -> Result<RawArg, NoMemory>
    ensures { IfOk result (λ a. a ≡ arg_of (view value.now)) }
{
    if let Some(text) = value.as_str() {
        return Ok(RawArg::Text(copied(alloc, text)?));
    }
    match value.as_u64() {
        Some(n) => Ok(RawArg::Whole(n)),
        None => Ok(RawArg::Other),
    }
}

fn args_of(alloc: Global, values: &[Value]) -> Result<RawArgs, NoMemory>
    ensures { IfOk result (λ args. args ≡ args_of (items_view values.now)) }
{
    let mut args = Vec::new(alloc);
    for value in values {
        let arg = read_arg(alloc, value)?;
        args.push(arg).map_err(|_| NoMemory)?;
    }
    Ok(RawArgs::over(args))
}

/// The items of a list, as arguments, or None where the value is no list.
pub fn read_args(alloc: Global, value: &Value) -> Result<Option<RawArgs>, NoMemory>
    ensures { IfOk result (λ args. args ≡ args_in (view value.now)) }
{
    match value.as_array() {
        Some(values) => Ok(Some(args_of(alloc, values.as_slice())?)),
        None => Ok(None),
    }
}

fn call_in(alloc: Global, values: &[Value]) -> Result<Option<RawCall>, NoMemory>
    ensures { IfOk result (λ call. call ≡ call_in (items_view values.now)) }
{
    let [first, rest @ ..] = values else {
        return Ok(None);
    };
    let Some(text) = first.as_str() else {
        return Ok(None);
    };
    let method = copied(alloc, text)?;
    let args = args_of(alloc, rest)?;
    Ok(Some(RawCall { method, args }))
}

fn read_call(alloc: Global, value: &Value) -> Result<Option<RawCall>, NoMemory>
    ensures { IfOk result (λ call. call ≡ call_of (view value.now)) }
{
    match value.as_array() {
        Some(values) => call_in(alloc, values.as_slice()),
        None => Ok(None),
    }
}

fn calls_of(alloc: Global, values: &[Value]) -> Result<Option<RawCalls>, NoMemory>
    ensures { IfOk result (λ calls. calls ≡ calls_of (items_view values.now)) }
{
    let mut calls = Vec::new(alloc);
    for value in values {
        let Some(call) = read_call(alloc, value)? else {
            return Ok(None);
        };
        calls.push(call).map_err(|_| NoMemory)?;
    }
    Ok(Some(RawCalls::over(calls)))
}

/// The items of a list, as calls, or None where the value is no list or one item is no call.
pub fn read_calls(alloc: Global, value: &Value) -> Result<Option<RawCalls>, NoMemory>
    ensures { IfOk result (λ calls. calls ≡ calls_in (view value.now)) }
{
    match value.as_array() {
        Some(values) => calls_of(alloc, values.as_slice()),
        None => Ok(None),
    }
}

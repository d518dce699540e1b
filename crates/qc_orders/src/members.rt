// The names of members, and the value of a text.
ghost use Rattle.std.specs.Prelude.{◌≡◌, IfOk, option_map};
ghost use Rattle.serde_json.specs.View.{view};
ghost use Rattle.qc_protocol.specs.Refusals.{member_text};
ghost use Rattle.qc_orders.specs.Orders.{value_of};

use qc_base::NoMemory;
use qc_protocol::Member;
use serde_json::Value;
use std::alloc::Global;

/// The value of a line, or None where it is no text of JSON.
pub fn read_value(alloc: Global, line: &[u8]) -> Result<Option<Value>, NoMemory>
    ensures { IfOk result (λ o. option_map view o ≡ value_of line.now) }
{
    match Value::from_slice(alloc, line) {
        Ok(value) => Ok(Some(value)),
        Err(e) if e.is_memory() => Err(NoMemory),
        Err(_) => Ok(None),
    }
}

pub fn member_name(member: Member) -> &'static str
    ensures { result.now ≡ member_text member }
{
    match member {
        Member::Line => "line",
        Member::Unknown => "unknown",
        Member::At => "at",
        Member::Do => "do",
        Member::Client => "client",
        Member::App => "app",
        Member::Component => "component",
        Member::Method => "method",
        Member::Args => "args",
        Member::Calls => "calls",
        Member::Player => "player",
        Member::From => "from",
        Member::To => "to",
        Member::Batch => "batch",
        Member::On => "on",
        Member::Table => "table",
        Member::Resource => "resource",
    }
}

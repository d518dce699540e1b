// Lines as orders.
ghost use Rattle.std.specs.Prelude.{◌≡◌};
ghost use Rattle.serde_json.specs.View.{view};
ghost use Rattle.qc_protocol.specs.Texts.{is_blank};
ghost use Rattle.qc_orders.specs.Orders.{order_in, Tells, TellsLine};

use crate::error::OrderError;
use crate::members::read_value;
use crate::object::Object;
use qc_base::Moment;
use qc_protocol::{Member, Order};
use std::alloc::Global;

/// In bytes, without the byte 10 that ends a line.
const LONGEST_LINE: usize = 65_536;

/// Whether a line has nothing but spaces, tabs and carriage returns (docs/FORMATS.md, "Order lines").
pub fn is_blank(line: &[u8]) -> bool
    ensures { result ≡ is_blank line.now }
{
    line.iter()
        .all(|b| *b == b' ' || (*b == b'\t' || *b == b'\r'))
}

/// The order of a text, which has the moment itself where none is handed in.
fn read_text(alloc: Global, text: &[u8], moment: Option<Moment>) -> Result<Order, OrderError>
    ensures { Tells result (order_in moment text.now) }
{
    let Some(value) = read_value(alloc, text)? else {
        return Err(OrderError::Malformed(Member::Line));
    };
    if !value.is_object() {
        return Err(OrderError::Malformed(Member::Line));
    }
    let object = Object {
        value: &value,
        moment,
    };
    object.order(alloc)
}

/// The order that a line says, without its byte 10 (docs/FORMATS.md, "Order lines"). The line may have any length.
///
/// `LineTooLong` comes exactly where it has more than 65,536 bytes. `Malformed` comes exactly where a shorter line is
/// no order, with the first member at fault. `NoMemory` may come for any line.
pub fn read_order(alloc: Global, line: &[u8]) -> Result<Order, OrderError>
    ensures { TellsLine result line.now }
{
    if line.len() > LONGEST_LINE {
        return Err(OrderError::LineTooLong);
    }
    read_text(alloc, line, None)
}

// Why a line is no order.
ghost use Rattle.std.specs.Prelude.{◌≡◌};

use qc_base::NoMemory;
use qc_protocol::Member;

/// Why there is no order of a line (docs/FORMATS.md, "Order lines").
#[derive(Clone, Copy, Debug, PartialEq, Eq)]
pub enum OrderError {
    /// The line has more than 65,536 bytes. Nothing else of it was looked at.
    LineTooLong,
    /// The line is no order, and this is the member at fault.
    Malformed(Member),
    /// Memory was wanting. This may be answered for any line.
    NoMemory,
}

impl OrderError {
    /// The same value again.
    pub fn copy(&self) -> OrderError
        ensures { result ≡ self.now }
    {
        *self
    }
}

impl From<Member> for OrderError {
    ghost use Rattle.std.specs.Prelude.{◌≡◌};
    ghost use Rattle.qc_orders.specs.declared.error.OrderError.TheVariants.{Malformed};

    ghost from_gives = { λ m e. e ≡ Malformed m };

    fn from(member: Member) -> Self {
        OrderError::Malformed(member)
    }
}

impl From<NoMemory> for OrderError {
    ghost use Rattle.std.specs.Prelude.{◌≡◌};
    ghost use Rattle.qc_orders.specs.declared.error.OrderError.TheVariants.{NoMemory as out_of_memory};

    ghost from_gives = { λ _ e. e ≡ out_of_memory };

    fn from(_: NoMemory) -> Self {
        OrderError::NoMemory
    }
}

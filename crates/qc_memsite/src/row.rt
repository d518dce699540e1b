// One row with its amount.
ghost use Rattle.std.specs.Prelude.{◌≡◌, ◌≤◌, IfOk};

use std::alloc::{AllocError, Global};

#[derive(Drop)]
pub(crate) struct RowAmount {
    pub(crate) resource: Vec<u8>,
    pub(crate) key: Vec<u8>,
    pub(crate) amount: u64,
    ghost bounded: { amount ≤ 1000000000000000 },
}

impl RowAmount {
    ghost use Rattle.qc_memsite.specs.Rows.{is_row};

    pub(crate) fn over(
        alloc: Global,
        resource: &[u8],
        key: &[u8],
        amount: u64,
    ) -> Result<RowAmount, AllocError>
        requires { amount ≤ 1000000000000000 }
        ensures resource { IfOk result (λ x. x.resource.items ≡ resource.now) }
        ensures key { IfOk result (λ x. x.key.items ≡ key.now) }
        ensures amount { IfOk result (λ x. x.amount ≡ amount) }
    {
        Ok(RowAmount {
            resource: resource.to_vec(alloc)?,
            key: key.to_vec(alloc)?,
            amount,
        })
    }

    // It is the row of this resource and key.
    pub(crate) fn is_of(&self, resource: &[u8], key: &[u8]) -> bool
        ensures { result ≡ is_row resource.now key.now self.now }
    {
        resource == self.resource.as_slice() && key == self.key.as_slice()
    }
}

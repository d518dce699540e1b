// Rows with their amounts.
ghost use Rattle.std.specs.Prelude.{◌≡◌, ◌≤◌, ℕ, List, None, true, false, is_some, IfOk, OnOk, OnErr, IfSome, IfNone};
ghost use Rattle.qc_base.specs.Rows.{set_row};
ghost use Rattle.qc_memsite.specs.Rows.{row_of, IsRowAt};

use crate::row::RowAmount;
use std::alloc::{AllocError, Global};

// Rows, each of them once.
#[derive(Drop)]
pub(crate) struct RowList {
    pub(crate) rows: Vec<RowAmount>,
}

impl RowList {
    pub(crate) fn empty(alloc: Global) -> RowList
        ensures { (r k : List ℕ) → row_of result.rows.items r k ≡ None }
    {
        RowList {
            rows: Vec::new(alloc),
        }
    }

    // Where the row stands.
    fn place(&self, resource: &[u8], key: &[u8]) -> Option<usize>
        ensures there { IfSome result (IsRowAt self.now.rows.items resource.now key.now) }
        ensures missing { IfNone result (row_of self.now.rows.items resource.now key.now ≡ None) }
    {
        for place in 0..self.rows.len() {
            if self.rows[place].is_of(resource, key) {
                return Some(place);
            }
        }
        None
    }

    pub(crate) fn amount(&self, resource: &[u8], key: &[u8]) -> Option<u64>
        ensures value { result ≡ row_of self.now.rows.items resource.now key.now }
        ensures bound { IfSome result (λ n. n ≤ 1000000000000000) }
    {
        let place = self.place(resource, key)?;
        Some(self.rows[place].amount)
    }

    // Sets a row that is there, and says whether it is.
    pub(crate) fn put(&mut self, resource: &[u8], key: &[u8], amount: u64) -> bool
        requires { amount ≤ 1000000000000000 }
        ensures there { result ≡ is_some (row_of self.old.rows.items resource.now key.now) }
        ensures set { result ≡ true → (r k : List ℕ) → row_of self.new.rows.items r k ≡ set_row resource.now key.now amount (λ s j. row_of self.old.rows.items s j) r k }
        ensures same { result ≡ false → self.new.rows.items ≡ self.old.rows.items }
    {
        match self.place(resource, key) {
            Some(place) => {
                self.rows[place].amount = amount;
                true
            }
            None => false,
        }
    }

    // Makes the row, or sets it.
    pub(crate) fn set(
        &mut self,
        alloc: Global,
        resource: &[u8],
        key: &[u8],
        amount: u64,
    ) -> Result<(), AllocError>
        requires { amount ≤ 1000000000000000 }
        ensures ok { OnOk result ((r k : List ℕ) → row_of self.new.rows.items r k ≡ set_row resource.now key.now amount (λ s j. row_of self.old.rows.items s j) r k) }
        ensures err { OnErr result (self.new.rows.items ≡ self.old.rows.items) }
    {
        if self.put(resource, key, amount) {
            return Ok(());
        }
        let row = RowAmount::over(alloc, resource, key, amount)?;
        self.rows.push(row)?;
        Ok(())
    }

    pub(crate) fn copy(&self, alloc: Global) -> Result<RowList, AllocError>
        ensures { IfOk result (λ l. (r k : List ℕ) → row_of l.rows.items r k ≡ row_of self.now.rows.items r k) }
    {
        let mut rows = Vec::with_capacity(alloc, self.rows.len())?;
        for row in &self.rows {
            let row = RowAmount::over(alloc, &row.resource, &row.key, row.amount)?;
            rows.push(row)?;
        }
        Ok(RowList { rows })
    }
}

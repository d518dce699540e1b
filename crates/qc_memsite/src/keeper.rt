// A keeper of rows in memory.
ghost use Rattle.std.specs.Prelude.{◌≡◌, ◌⊎◌, ◌≤◌, ℕ, List, true, false, Some, None, is_err, is_some, IfOk, OnOk, OnErr, IfSome, IsErr};
ghost use Rattle.qc_base.specs.Rows.{set_row, put_row};
ghost use Rattle.qc_site.specs.Causes.{HasCause};
ghost use Rattle.qc_memsite.specs.Failures.{FailedBy};
ghost use Rattle.qc_memsite.specs.Keepers.{rows_by};
ghost use Rattle.qc_memsite.specs.Numbers.{is_named, Counted};

use crate::account::Account;
use crate::numbers::Numbers;
use crate::rows::RowList;
use qc_base::NoMemory;
use qc_site::{Failed, Keeper};
use std::alloc::Global;

/// A keeper of rows in memory, with a plan of the calls that fail, all kinds counted together. It always tells its
/// rows.
#[derive(Drop)]
pub struct MemKeeper {
    alloc: Global,
    rows: RowList,
    numbers: Numbers,
    account: Account,
}

impl MemKeeper {
    /// A keeper without rows. The plan has the numbers of the calls that fail, from 1.
    pub fn make(alloc: Global, plan: Vec<u32>) -> Result<MemKeeper, NoMemory>
        ensures empty { IfOk result (λ m. (r k : List ℕ) → rows_by m r k ≡ None) }
        ensures tells { IfOk result (λ m. ⟦<MemKeeper as Keeper>⟧.rows m ≡ Some (rows_by m)) }
        ensures plan { IfOk result (λ m. m.numbers.plan ≡ plan) }
        ensures made { IfOk result (λ m. m.numbers.made ≡ 0) }
        ensures faults { IfOk result (λ m. (m.account.faults ≡ 0) × (m.account.starved ≡ 0)) }
    {
        Ok(MemKeeper {
            alloc,
            rows: RowList::empty(alloc),
            numbers: Numbers::over(plan),
            account: Account::empty(),
        })
    }

    /// How many calls found no memory of their own.
    pub fn starved(&self) -> u64
        ensures { result ≡ self.now.account.starved }
    {
        self.account.starved
    }
}

impl Keeper for MemKeeper {
    ghost rows = { λ m. Some (rows_by m) };

    ghost faults = { λ m. m.account.faults };

    fn make(&mut self, resource: &[u8], key: &[u8], amount: u64) -> Result<(), Failed>
        requires { amount ≤ 1000000000000000 }
        ensures made { OnOk result (rows_by self.new ≡ set_row resource.now key.now amount (rows_by self.old)) }
        ensures failed { OnErr result (rows_by self.new ≡ rows_by self.old) }
        ensures cause { HasCause self.old.account.faults self.new.account.faults (IsErr result) }
        // It fails exactly by the plan or for want of memory.
        ensures by_plan { OnErr result (FailedBy (is_named self.old.numbers) self.old.account.starved self.new.account.starved) }
        ensures passed { OnOk result ((is_named self.old.numbers ≡ false) × (self.new.account.starved ≡ self.old.account.starved)) }
        ensures counted { Counted self.old.numbers self.new.numbers }
        ensures tells { ⟦<MemKeeper as Keeper>⟧.rows self.new ≡ Some (rows_by self.new) }
    {
        if self.numbers.names_next() {
            return Err(self.account.fault());
        }
        let Ok(()) = self.rows.set(self.alloc, resource, key, amount) else {
            return Err(self.account.starve());
        };
        Ok(())
    }

    fn get(&mut self, resource: &[u8], key: &[u8]) -> Result<Option<u64>, Failed>
        ensures amount { IfOk result (λ found. (found ≡ rows_by self.old resource.now key.now) × (rows_by self.new ≡ rows_by self.old)) }
        ensures bound { IfOk result (λ found. IfSome found (λ n. n ≤ 1000000000000000)) }
        ensures failed { OnErr result (rows_by self.new ≡ rows_by self.old) }
        ensures cause { HasCause self.old.account.faults self.new.account.faults (IsErr result) }
        // It fails exactly by the plan.
        ensures by_plan { is_err result ≡ is_named self.old.numbers }
        ensures counted { Counted self.old.numbers self.new.numbers }
        ensures tells { ⟦<MemKeeper as Keeper>⟧.rows self.new ≡ Some (rows_by self.new) }
        ensures fed { self.new.account.starved ≡ self.old.account.starved }
    {
        if self.numbers.names_next() {
            return Err(self.account.fault());
        }
        Ok(self.rows.amount(resource, key))
    }

    fn put(&mut self, resource: &[u8], key: &[u8], amount: u64) -> Result<bool, Failed>
        requires { amount ≤ 1000000000000000 }
        ensures put { IfOk result (λ there. (there ≡ is_some (rows_by self.old resource.now key.now)) × (rows_by self.new ≡ put_row resource.now key.now amount (rows_by self.old))) }
        ensures failed { OnErr result (rows_by self.new ≡ rows_by self.old) }
        ensures cause { HasCause self.old.account.faults self.new.account.faults (IsErr result) }
        // It fails exactly by the plan: setting a row that is there takes no memory.
        ensures by_plan { is_err result ≡ is_named self.old.numbers }
        ensures counted { Counted self.old.numbers self.new.numbers }
        ensures tells { ⟦<MemKeeper as Keeper>⟧.rows self.new ≡ Some (rows_by self.new) }
        ensures fed { self.new.account.starved ≡ self.old.account.starved }
    {
        if self.numbers.names_next() {
            return Err(self.account.fault());
        }
        Ok(self.rows.put(resource, key, amount))
    }
}

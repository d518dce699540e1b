// A keeper of outside rows. What it holds is known only where it tells.
ghost use Rattle.std.specs.Prelude.{◌≡◌, ◌≤◌, ℕ, Option, IfOk, OnOk, OnErr, IfSome, IsErr, is_some};
ghost use Rattle.qc_base.specs.Rows.{OutsideRows, set_row, put_row};
ghost use Rattle.qc_site.specs.Causes.{HasCause};
ghost use Rattle.qc_site.specs.Keepers.{Goes};

use crate::Failed;

/// A keeper of outside rows: from a resource and a key to an amount, a whole number from 0 to 10^15.
///
/// Each clause on rows holds where the keeper tells them before the call and after it. After a failure the rows are
/// as before.
pub trait Keeper {
    /// The rows, where it tells.
    ghost rows: { Self → Option OutsideRows };

    /// How often it has failed.
    ghost faults: { Self → ℕ };

    /// Makes the row, or sets it.
    fn make(&mut self, resource: &[u8], key: &[u8], amount: u64) -> Result<(), Failed>
        requires { amount ≤ 1000000000000000 }
        ensures made { OnOk result (Goes (rows self.old) (rows self.new) (λ old new. new ≡ set_row resource.now key.now amount old)) }
        ensures failed { OnErr result (Goes (rows self.old) (rows self.new) (λ old new. new ≡ old)) }
        ensures cause { HasCause (faults self.old) (faults self.new) (IsErr result) };

    /// The amount of the row. None comes exactly where it isn't there. A value that is no amount is a failure.
    fn get(&mut self, resource: &[u8], key: &[u8]) -> Result<Option<u64>, Failed>
        ensures amount { IfOk result (λ found. Goes (rows self.old) (rows self.new) (λ old new. (found ≡ old resource.now key.now) × (new ≡ old))) }
        ensures bound { IfOk result (λ found. IfSome found (λ n. n ≤ 1000000000000000)) }
        ensures failed { OnErr result (Goes (rows self.old) (rows self.new) (λ old new. new ≡ old)) }
        ensures cause { HasCause (faults self.old) (faults self.new) (IsErr result) };

    /// Sets a row that is there, and says whether it is. Where it isn't, nothing changes.
    fn put(&mut self, resource: &[u8], key: &[u8], amount: u64) -> Result<bool, Failed>
        requires { amount ≤ 1000000000000000 }
        ensures put { IfOk result (λ there. Goes (rows self.old) (rows self.new) (λ old new. (there ≡ is_some (old resource.now key.now)) × (new ≡ put_row resource.now key.now amount old))) }
        ensures failed { OnErr result (Goes (rows self.old) (rows self.new) (λ old new. new ≡ old)) }
        ensures cause { HasCause (faults self.old) (faults self.new) (IsErr result) };
}

// How a row's amount changes.
ghost use Rattle.std.specs.Prelude.{◌≡◌, ◌≤ℤ◌, pos, negsuc};
ghost use Rattle.qc_play.specs.Play.{as_amount, changed, new_amount};

use qc_base::Amount;

/// What an amount does with the worth of an expression.
#[derive(Clone, Copy, Debug, PartialEq, Eq)]
pub enum Change {
    /// It grows by it.
    Rise,
    /// It falls by it.
    Fall,
    /// It becomes it.
    Become,
}

/// The number as an amount. None exactly below 0 and past 10^15.
fn as_amount(number: i128) -> Option<Amount>
    ensures { result ≡ as_amount number }
{
    if number < 0 || number > 1_000_000_000_000_000 {
        return None;
    }
    Amount::new(number as u64)
}

fn changed(change: Change, old: Amount, number: i128) -> i128
    requires low { negsuc 99999999999999999999999999999999999 ≤ℤ number }
    requires high { number ≤ℤ pos 99999999999999999999999999999999999 }
    ensures { result ≡ changed change old number }
{
    let old = i128::from(old.get());
    match change {
        Change::Rise => old + number,
        Change::Fall => old - number,
        Change::Become => number,
    }
}

/// The amount that a row gets. None where it has none, or would leave 0 to 10^15.
pub fn new_amount(change: Change, number: i128, old: Option<Amount>) -> Option<Amount>
    requires low { negsuc 99999999999999999999999999999999999 ≤ℤ number }
    requires high { number ≤ℤ pos 99999999999999999999999999999999999 }
    ensures { result ≡ new_amount change number old }
{
    let old = old?;
    as_amount(changed(change, old, number))
}

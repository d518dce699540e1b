// What expressions are worth.
ghost use Rattle.std.specs.Prelude.{◌≡◌, ◌≤ℤ◌, ◌≤◌, pos, negsuc, slice_get};
ghost use Rattle.qc_play.specs.Board.{applied, looked_up, seen_of};
ghost use Rattle.qc_play.specs.Play.{amount_of, amount_at, whole_of, worth_of_term, worth, compares, holds};

use qc_base::{Amount, Arg, Row, Space};
use qc_script::{Compare, Comparison, SignedTerm, Term, row_at, same_row};

// What the view has for a row, where the row is there.
fn seen_of(view: &[(Row, Option<Amount>)], row: &Row) -> Option<Option<Amount>>
    ensures { result ≡ seen_of row.now view.now }
{
    for seen in view {
        if same_row(&seen.0, row) {
            return Some(seen.1);
        }
    }
    None
}

fn behind_writes(writes: &[(Row, Amount)], row: &Row, before: Option<Amount>) -> Option<Amount>
    ensures { result ≡ looked_up row.now writes.now before }
{
    let mut amount = before;
    for write in writes {
        if same_row(&write.0, row) {
            amount = Some(write.1);
        }
    }
    amount
}

/// The amount of a row behind what was written over a view, where it is there and has one. This looks through the view
/// once, and through the writes of the call.
#[tactic(auto, using(crate::proofs::Writes::looked_up_is))]
pub fn look_up(
    view: &[(Row, Option<Amount>)],
    writes: &[(Row, Amount)],
    row: &Row,
) -> Option<Amount>
    ensures { result ≡ amount_of row.now (applied writes.now view.now) }
{
    match seen_of(view, row) {
        Some(amount) => behind_writes(writes, row, amount),
        None => None,
    }
}

fn amount_at(
    view: &[(Row, Option<Amount>)],
    writes: &[(Row, Amount)],
    row: Option<Row>,
) -> Option<Amount>
    ensures { result ≡ amount_at row (applied writes.now view.now) }
{
    match row {
        Some(row) => look_up(view, writes, &row),
        None => None,
    }
}

fn whole_of(args: &[Arg], place: usize) -> u64
    ensures value { result ≡ whole_of (slice_get args.now place) }
    ensures bound { result ≤ 1000000000000000 }
{
    match args.get(place) {
        Some(Arg::Whole(number)) => number.get(),
        Some(Arg::Text(_)) => 0,
        None => 0,
    }
}

fn worth_of_term(
    args: &[Arg],
    view: &[(Row, Option<Amount>)],
    writes: &[(Row, Amount)],
    term: &Term,
) -> u64
    ensures value { result ≡ worth_of_term args.now (applied writes.now view.now) term.now }
    ensures bound { result ≤ 1000000000000000 }
{
    match term {
        Term::Number(number) => number.get(),
        Term::Param(place) => whole_of(args, *place),
        Term::Row(table, key) => {
            match amount_at(view, writes, row_at(Space::Inside, args, table, key)) {
                Some(amount) => amount.get(),
                None => 0,
            }
        }
    }
}

/// What an expression is worth, worked out from the left. Of rows without an amount it takes 0. Its terms are at most
/// 10^15 each, so 128 bits hold it whatever their number.
pub fn worth(
    args: &[Arg],
    view: &[(Row, Option<Amount>)],
    writes: &[(Row, Amount)],
    terms: &[SignedTerm],
) -> i128
    ensures value { result ≡ worth args.now (applied writes.now view.now) terms.now }
    ensures low { negsuc 99999999999999999999999999999999999 ≤ℤ result }
    ensures high { result ≤ℤ pos 99999999999999999999999999999999999 }
{
    let mut sum: i128 = 0;
    for signed in terms {
        let number = i128::from(worth_of_term(args, view, writes, &signed.term));
        if signed.minus {
            sum -= number;
        } else {
            sum += number;
        }
    }
    sum
}

fn compares(compare: Compare, left: i128, right: i128) -> bool
    ensures { result ≡ compares compare left right }
{
    match compare {
        Compare::Less => left < right,
        Compare::AtMost => left <= right,
        Compare::Equal => left <= right && right <= left,
        Compare::NotEqual => left < right || right < left,
        Compare::AtLeast => right <= left,
        Compare::More => right < left,
    }
}

/// Whether a comparison holds.
pub fn holds(
    args: &[Arg],
    view: &[(Row, Option<Amount>)],
    writes: &[(Row, Amount)],
    test: &Comparison,
) -> bool
    ensures { result ≡ holds args.now (applied writes.now view.now) test.now }
{
    let left = worth(args, view, writes, test.left.as_slice());
    let right = worth(args, view, writes, test.right.as_slice());
    compares(test.compare, left, right)
}

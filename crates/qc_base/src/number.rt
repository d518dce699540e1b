// Amounts and moments.
ghost use Rattle.std.specs.Prelude.{◌≡◌, ℕ, ◌≤◌, MatchOption, ◌<◌};
ghost use Rattle.qc_base.specs.Moments.{due_at};

use std::marker::Model;

/// There was no memory for what was asked.
#[derive(Clone, Copy, Debug, PartialEq, Eq)]
pub struct NoMemory;

impl NoMemory {
    /// The same value again.
    pub fn copy(&self) -> NoMemory
        ensures { result ≡ self.now }
    {
        *self
    }
}

/// What a row holds: a whole number from 0 to 10^15 (docs/RULES.md, "Values").
/// Contracts see the number.
#[derive(Clone, Copy, Debug, PartialEq, Eq)]
pub struct Amount(u64);

impl Model for Amount {
    ghost Value = { ℕ };

    ghost view = { λ a. a.0 };

    ghost invariant = { λ a. a.0 ≤ 1000000000000000 };

    ghost inverse = { λ n. record { 0 = n } };
}

impl Amount {
    /// The amount, or None exactly past 10^15.
    pub fn new(n: u64) -> Option<Amount>
        ensures { MatchOption result (1000000000000000 < n) (λ a. (a ≡ n) × (n ≤ 1000000000000000)) }
    {
        if n <= 1_000_000_000_000_000 {
            Some(Amount(n))
        } else {
            None
        }
    }

    /// The number.
    pub fn get(self) -> u64
        ensures value { result ≡ self }
        ensures bound { self ≤ 1000000000000000 }
    {
        self.0
    }

    /// The same value again.
    pub fn copy(&self) -> Amount
        ensures { result ≡ self.now }
    {
        *self
    }
}

/// A moment: a whole number of seconds from 0 to 10^12 (docs/RULES.md, "Values").
/// Contracts see the number.
#[derive(Clone, Copy, Debug, PartialEq, Eq)]
pub struct Moment(u64);

impl Model for Moment {
    ghost Value = { ℕ };

    ghost view = { λ a. a.0 };

    ghost invariant = { λ a. a.0 ≤ 1000000000000 };

    ghost inverse = { λ n. record { 0 = n } };
}

impl Moment {
    /// The moment, or None exactly past 10^12.
    pub fn new(n: u64) -> Option<Moment>
        ensures { MatchOption result (1000000000000 < n) (λ a. (a ≡ n) × (n ≤ 1000000000000)) }
    {
        if n <= 1_000_000_000_000 {
            Some(Moment(n))
        } else {
            None
        }
    }

    /// The moment, or 10^12 where the number lies past it: so a due moment and a clock's
    /// answer stay in the range (docs/RULES.md, "Retry rule").
    pub fn clamp(n: u64) -> Moment
        ensures { result ≡ due_at n }
    {
        if n <= 1_000_000_000_000 {
            Moment(n)
        } else {
            Moment(1_000_000_000_000)
        }
    }

    /// The number of seconds.
    pub fn get(self) -> u64
        ensures value { result ≡ self }
        ensures bound { self ≤ 1000000000000 }
    {
        self.0
    }

    /// The same value again.
    pub fn copy(&self) -> Moment
        ensures { result ≡ self.now }
    {
        *self
    }
}

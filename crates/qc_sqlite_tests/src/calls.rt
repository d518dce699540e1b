// Calls of a keeper, drawn from a seed.
ghost use Rattle.std.specs.Prelude.{◌≤◌};

use qc_base::Amount;
use qc_site::{Failed, Keeper};

const RESOURCES: [&str; 3] = ["till", "Till", "post"];

const KEYS: [&str; 5] = ["drawer", "drawer ", "it's", "é", "1"];

const MOST: u64 = 1_000_000_000_000_000;

/// What a call asks for.
#[derive(Clone, Copy, Debug)]
pub enum RowAction {
    /// To make the row, or set it.
    Make(Amount),
    /// Its amount.
    Get,
    /// To set it where it is there.
    Put(Amount),
}

/// What a keeper answered.
#[derive(Clone, Copy, Debug, PartialEq, Eq)]
pub enum RowAnswer {
    /// The row was made or set.
    Made,
    /// The amount, where the row is there.
    Got(Option<u64>),
    /// Whether the row is there.
    Put(bool),
    /// The keeper has failed.
    Failed,
}

/// One call of a keeper.
#[derive(Clone, Copy, Debug)]
pub struct RowCall {
    resource: &'static str,
    key: &'static str,
    action: RowAction,
}

impl RowCall {
    /// Makes the call on this keeper.
    pub fn on<K: Keeper>(&self, keeper: &mut K) -> RowAnswer
        ensures { K.faults keeper.old ≤ K.faults keeper.new }
    {
        let resource = self.resource.as_bytes();
        let key = self.key.as_bytes();
        match self.action {
            RowAction::Make(amount) => match keeper.make(resource, key, amount.get()) {
                Ok(()) => RowAnswer::Made,
                Err(Failed) => RowAnswer::Failed,
            },
            RowAction::Get => match keeper.get(resource, key) {
                Ok(found) => RowAnswer::Got(found),
                Err(Failed) => RowAnswer::Failed,
            },
            RowAction::Put(amount) => match keeper.put(resource, key, amount.get()) {
                Ok(there) => RowAnswer::Put(there),
                Err(Failed) => RowAnswer::Failed,
            },
        }
    }
}

/// A draw of calls, the same for the same seed.
#[derive(Drop)]
pub struct Draw {
    state: u64,
}

impl Draw {
    /// The draw of this seed.
    pub fn of(seed: u64) -> Draw {
        Draw { state: seed }
    }

    // A number below 2^16.
    fn number(&mut self) -> usize {
        self.state = self
            .state
            .wrapping_mul(6_364_136_223_846_793_005)
            .wrapping_add(1_442_695_040_888_963_407);
        usize::from((self.state >> 48) as u16)
    }

    // One of the least or of the most.
    fn amount(&mut self) -> Option<Amount> {
        Amount::new(match self.number() % 4 {
            0 => 0,
            1 => 1,
            2 => MOST - 1,
            _ => MOST,
        })
    }

    /// The next call.
    pub fn next(&mut self) -> RowCall {
        let resource = RESOURCES[self.number() % 3];
        let key = KEYS[self.number() % 5];
        let action = match (self.number() % 5, self.amount()) {
            (0, Some(amount)) => RowAction::Make(amount),
            (1 | 2, Some(amount)) => RowAction::Put(amount),
            _ => RowAction::Get,
        };
        RowCall {
            resource,
            key,
            action,
        }
    }
}

// Orders on what a player holds.
ghost use Rattle.std.specs.Prelude.{◌≡◌};
ghost use Rattle.qc_players.specs.Orders.{serves};

use qc_base::Stage;

/// An order on the attempt that a player holds (docs/RULES.md, "Work", "End" and "Phase").
#[derive(Clone, Copy, Debug, PartialEq, Eq)]
pub enum PlayerOrder {
    /// Run the next call.
    Work,
    /// End it, once its calls ran or one failed.
    End,
    /// Do what follows its end.
    Phase,
}

impl PlayerOrder {
    // Whether the order is for attempts in this stage.
    pub(crate) fn serves(self, stage: Stage) -> bool
        ensures { result ≡ serves self stage }
    {
        match self {
            PlayerOrder::Work => matches!(stage, Stage::Calls),
            PlayerOrder::End => matches!(stage, Stage::Ready | Stage::Failing),
            PlayerOrder::Phase => matches!(stage, Stage::Commit | Stage::Abort),
        }
    }
}

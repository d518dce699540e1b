// What holds of the calls of each attempt. Nothing runs here: the contract is the law.
ghost use Rattle.std.specs.Prelude.{◌≡◌, ◌≤◌, ◌+◌, ◌*◌, ℕ, List, [], length};
ghost use Rattle.qc_script.specs.Naming.{names_with};
ghost use Rattle.qc_catalogue.specs.declared.catalogue.Catalogue.{Catalogue};
ghost use Rattle.qc_play.specs.Play.{Play};
ghost use Rattle.qc_txn.specs.Parts.{Part, effects_of_parts, log_room, outs_of_parts};
ghost use Rattle.crm_clerk.specs.Clerk.{new_clerk};
ghost use Rattle.qc_underway.specs.Standing.{lines_left, room_left};

/// What is set aside for an attempt is enough for all that its calls write: of the log, with a line more for each of its
/// records and one for Done, and of the clerk, a registration for each resource that its scripts name and a record for
/// each of their changes.
pub fn what_is_set_aside_is_enough()
    ensures log { (c : Catalogue) → (parts : List Part) → (play : Play) → (attempt : ℕ) → (id : ℕ) → (room : ℕ)
        → play.records ≡ []
        → 132 * (lines_left c parts play (new_clerk attempt id room) + outs_of_parts parts + 1) ≤ log_room parts }
    ensures clerk { (c : Catalogue) → (parts : List Part) → (play : Play) → (attempt : ℕ) → (id : ℕ) → (room : ℕ)
        → play.records ≡ []
        → room_left c parts play (new_clerk attempt id room)
        ≤ length (names_with [] (effects_of_parts parts)) + outs_of_parts parts }
{}

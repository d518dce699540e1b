// What holds of an image that a crash leaves in the midst of an effect of an early resource. Nothing runs here: the
// contracts are the laws.
ghost use Rattle.std.specs.Prelude.{◌≡◌, ◌⊎◌, ℕ, List, [], ◌∷◌, ◌++◌};
ghost use Rattle.qc_base.specs.Rows.{OutsideRows};
ghost use Rattle.qc_base.specs.declared.log_line.LogLine.{LogLine};
ghost use Rattle.qc_site.specs.Image.{Image};
ghost use Rattle.qc_entries.specs.Entries.{EntriesView};
ghost use Rattle.qc_catalogue.specs.declared.catalogue.Resource.{Resource};
ghost use Rattle.crm_log.specs.Log.{SpellsLog, all_lines};
ghost use Rattle.crm_clerk.specs.Clerk.{ClerkView, next_record};
ghost use Rattle.crm_clerk.specs.Staging.{staged_lines};
ghost use Rattle.crm_driver.specs.Puts.{RowPut, after_put, GoesByPuts};
ghost use Rattle.crm_driver.specs.RowRules.{put_of};
ghost use Rattle.qc_worker.specs.Calls.{GoesByLogged};
ghost use Rattle.qc_worker.specs.Crashes.{ChangeWaits, RecordIsRead};
ghost use Rattle.qc_worker.specs.Effects.{change_lines, retract_puts};

/// Where an image before spells groups of lines, and a change waits in the log behind other lines, one that a crash
/// leaves spells these groups, or these and all that waited as one group more (`lines`). It has the rows that were, or
/// the rows with the new amount: then the change's record is read back from its log, unforgotten (`row`).
pub fn a_row_is_put_where_its_record_is_read()
    ensures lines { (clerk : ClerkView) → (r : Resource) → (key : List ℕ) → (old : ℕ) → (new : ℕ) → (log : EntriesView)
        → (before : List LogLine) → (groups : List (List LogLine)) → (rows : OutsideRows) → (was : Image) → (c : Image)
        → ChangeWaits clerk r key old new log before groups → SpellsLog was.crm_log groups
        → GoesByLogged (staged_lines log (change_lines clerk r key old new)).log rows (put_of r.name key new) was c
        → SpellsLog c.crm_log groups
        ⊎ SpellsLog c.crm_log (groups ++ (before ++ change_lines clerk r key old new) ∷ []) }
    ensures row { (clerk : ClerkView) → (r : Resource) → (key : List ℕ) → (old : ℕ) → (new : ℕ) → (log : EntriesView)
        → (before : List LogLine) → (groups : List (List LogLine)) → (rows : OutsideRows) → (was : Image) → (c : Image)
        → ChangeWaits clerk r key old new log before groups → SpellsLog was.crm_log groups
        → GoesByLogged (staged_lines log (change_lines clerk r key old new)).log rows (put_of r.name key new) was c
        → (c.rows ≡ was.rows) ⊎ ((c.rows ≡ (after_put (put_of r.name key new) was).rows)
        × RecordIsRead clerk.attempt r.name (next_record clerk r.name key old new) (all_lines groups ++ before) c) }
{}

/// A crash in the midst of a retract leaves an image before, or that with a front of the retract's puts
/// (`LeavesFront`). Such an image has the log of the one before, so it forgets no record that wasn't forgotten; and it
/// is that one, or has all puts, of which an early resource has one: the old amount.
pub fn no_record_is_forgotten_before_its_row_is_back()
    ensures { (clerk : ClerkView) → (r : Resource) → (rows : OutsideRows) → (done : List RowPut) → (left : List RowPut)
        → (was : Image) → (c : Image) → retract_puts clerk r ≡ done ++ left → GoesByPuts rows done was c
        → (c.crm_log ≡ was.crm_log) × ((c ≡ was) ⊎ GoesByPuts rows (retract_puts clerk r) was c) }
{}

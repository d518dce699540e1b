// What holds of each call that is run. Nothing runs here: the contracts are the laws.
ghost use Rattle.std.specs.Prelude.{◌≡◌, ◌≤◌, ◌+◌, List, [], length, flat_map, true, false};
ghost use Rattle.std.specs.List.{list_any};
ghost use Rattle.qc_base.specs.Rows.{OutsideRows, row_eq};
ghost use Rattle.qc_base.specs.declared.recording.Arg.{Arg};
ghost use Rattle.qc_base.specs.declared.recording.Row.{Row};
ghost use Rattle.qc_base.specs.declared.recording.Space.TheVariants.{Inside};
ghost use Rattle.qc_script.specs.Naming.{effects, outs, rows_of_step};
ghost use Rattle.qc_script.specs.declared.step.Step.{Step};
ghost use Rattle.qc_play.specs.Effects.{IsOuter, LeadsTo, amounts_in, outer_of};
ghost use Rattle.qc_play.specs.Limits.{effects_fit, records_fit, view_fits};
ghost use Rattle.qc_play.specs.Play.{Play, Seen, amount_of, ran, rows_in, run_call};

/// A call keeps the rows of a view and their order, and an inside row changes only where a step names it, also one that
/// is skipped. The records of an attempt that began with none lead from its first outside amounts to those of now: so
/// they do before its first call, and each call's effects lead on from the records and outside amounts before it to
/// those after it (docs/RULES.md, "Work").
pub fn a_call_changes_what_it_says()
    ensures rows { (script : List Step) → (args : List Arg) → (play : Play) → (next : Play)
        → run_call script args play ≡ ran next → rows_in next.view ≡ rows_in play.view }
    ensures inside { (row : Row) → row.space ≡ Inside
        → (script : List Step) → (args : List Arg) → (play : Play) → (next : Play)
        → list_any (row_eq row) (flat_map (rows_of_step args) script) ≡ false → run_call script args play ≡ ran next
        → amount_of row next.view ≡ amount_of row play.view }
    ensures begun { (view : List Seen)
        → IsOuter (amounts_in view) (outer_of (record { view = view; records = []; forced = false; effects = [] })) }
    ensures effects { (first : OutsideRows)
        → (script : List Step) → (args : List Arg) → (play : Play) → (next : Play)
        → IsOuter first (outer_of play) → run_call script args play ≡ ran next
        → LeadsTo (outer_of play) next.effects (outer_of next) × IsOuter first (outer_of next) }
{}

/// Where each amount of the view and of the records is at most 10^15, so is each one after a call, those of its effects
/// too. A call has at most as many effects as steps with one, and adds at most as many records as steps that change an
/// outside row. An attempt that is forced stays so.
pub fn a_call_stays_in_its_limits()
    ensures range { (script : List Step) → (args : List Arg) → (play : Play) → (next : Play)
        → view_fits play.view ≡ true → records_fit play.records ≡ true → run_call script args play ≡ ran next
        → (view_fits next.view ≡ true) × (records_fit next.records ≡ true) × (effects_fit next.effects ≡ true) }
    ensures few { (script : List Step) → (args : List Arg) → (play : Play) → (next : Play)
        → run_call script args play ≡ ran next
        → (length next.effects ≤ effects script) × (length next.records ≤ length play.records + outs script) }
    ensures forced { (script : List Step) → (args : List Arg) → (play : Play) → (next : Play)
        → play.forced ≡ true → run_call script args play ≡ ran next → next.forced ≡ true }
{}

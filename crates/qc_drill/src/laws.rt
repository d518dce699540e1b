// What holds of lines in turn. Nothing runs here: the contract is the law.
ghost use Rattle.std.specs.Prelude.{List, ℕ};
ghost use Rattle.qc_machine.specs.Laws.{GoesOn};
ghost use Rattle.qc_machine.specs.State.{State};
ghost use Rattle.qc_drill.specs.Crash.{IsAfterFront};

/// A history that a crash leaves in the midst of lines begins with the history before them: no fact is lost or changed
/// (docs/RULES.md, "What a drill promises").
pub fn lines_lose_no_fact()
    ensures { (s x : State) (lines : List (List ℕ)) → IsAfterFront s lines x → GoesOn s x }
{}

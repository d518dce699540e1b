// What holds of all spellings. Nothing runs here: the contracts are the laws.
ghost use Rattle.std.specs.Prelude.{◌≡◌, ◌++◌, ◌≤◌, ℕ, List, length, true};
ghost use Rattle.qc_base.specs.Spelling.{short_bytes, spelled_arg, is_arg, spelled_call, is_call, spelled_recording, is_recording, spelled_fact, is_fact, spelled_line, is_line, IsPrefixFree};
ghost use Rattle.qc_base.specs.declared.fact.Fact.{Fact};
ghost use Rattle.qc_base.specs.declared.log_line.LogLine.{LogLine};

/// No spelling begins another, so bytes are read in one way at most (docs/FORMATS.md, "Recording",
/// "Facts" and "Log lines").
pub fn no_spelling_begins_another()
    ensures words { (a b x y : List ℕ) → short_bytes a ++ x ≡ short_bytes b ++ y → (a ≡ b) × (x ≡ y) }
    ensures arguments { IsPrefixFree is_arg spelled_arg }
    ensures calls { IsPrefixFree is_call spelled_call }
    ensures recordings { IsPrefixFree is_recording spelled_recording }
    ensures facts { IsPrefixFree is_fact spelled_fact }
    ensures lines { IsPrefixFree is_line spelled_line }
{}

/// A fact's spelling has 1 to 1,048,581 bytes, and a log line's has 1 to 128 (docs/FORMATS.md, "Facts"
/// and "Log lines").
pub fn spellings_are_bounded()
    ensures facts { (fact : Fact) → is_fact fact ≡ true → (1 ≤ length (spelled_fact fact)) × (length (spelled_fact fact) ≤ 1048581) }
    ensures lines { (line : LogLine) → is_line line ≡ true → (1 ≤ length (spelled_line line)) × (length (spelled_line line) ≤ 128) }
{}

// What holds of what an index keeps. Nothing runs here: the contracts are the laws.
ghost use Rattle.std.specs.Prelude.{◌≡◌, ℕ, List, ◌==◌, false, Some, None};
ghost use Rattle.qc_base.specs.declared.fact.Kind.{Kind};
ghost use Rattle.qc_base.specs.declared.recording.Recording.{Recording};
ghost use Rattle.qc_catalogue.specs.declared.catalogue.Catalogue.{Catalogue};
ghost use Rattle.qc_listener.specs.Index.{MessageRows, rows_for, rows_kept, with_entry, without};
ghost use Rattle.qc_txn.specs.Parts.{rows_of_attempt};

/// What an index is set to keep of a message is exactly the rows of the attempts on it, and is told until the message
/// is removed. Neither a set nor a removal changes what is told of another message.
pub fn what_is_set_is_told()
    ensures set { (c : Catalogue) (id : ℕ) (r : Recording) (kind : Kind) (index : List MessageRows)
        → rows_kept id kind (with_entry (rows_for c id r) index) ≡ Some (rows_of_attempt c r kind) }
    ensures others_at_set { (entry : MessageRows) (id : ℕ) (kind : Kind) (index : List MessageRows)
        → (id == entry.id) ≡ false → rows_kept id kind (with_entry entry index) ≡ rows_kept id kind index }
    ensures removed { (id : ℕ) (kind : Kind) (index : List MessageRows) → rows_kept id kind (without id index) ≡ None }
    ensures others_at_removal { (gone id : ℕ) (kind : Kind) (index : List MessageRows)
        → (id == gone) ≡ false → rows_kept id kind (without gone index) ≡ rows_kept id kind index }
{}

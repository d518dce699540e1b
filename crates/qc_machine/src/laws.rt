// What holds of every step. Nothing runs here: the contracts are the laws.
ghost use Rattle.std.specs.Prelude.{◌≡◌, ◌≤◌, ℕ, List, flat_map, map, true, Some, is_some, if◌then◌else◌};
ghost use Rattle.qc_base.specs.declared.fact.Fact.{Fact};
ghost use Rattle.qc_base.specs.declared.message.Message.{Message};
ghost use Rattle.qc_base.specs.Messages.{message_of};
ghost use Rattle.qc_catalogue.specs.Laws.{keys_ascend};
ghost use Rattle.qc_listener.specs.Choice.{kind_at};
ghost use Rattle.qc_protocol.specs.declared.order.Order.{Order};
ghost use Rattle.qc_protocol.specs.declared.reply.Refusal.{Refusal};
ghost use Rattle.qc_protocol.specs.declared.reply.Reply.TheVariants.{Refused};
ghost use Rattle.qc_rows.specs.Laws.{are_canonical};
ghost use Rattle.qc_rows.specs.Outside.{opened_resources, outside_amount};
ghost use Rattle.qc_rows.specs.Places.{places_of};
ghost use Rattle.qc_rows.specs.Tables.{rows_shown};
ghost use Rattle.qc_txn.specs.Parts.{is_playable};
ghost use Rattle.qc_machine.specs.History.{Reader, by_text, history_of, is_legal};
ghost use Rattle.qc_machine.specs.Laws.{GoesOn, IsInRange, IsSettled, ReadsOrderly};
ghost use Rattle.qc_machine.specs.Moving.{AreOfSize, batches};
ghost use Rattle.qc_machine.specs.Once.{EachOnce, TotalsSettled};
ghost use Rattle.qc_machine.specs.Refuse.{is_of_line};
ghost use Rattle.qc_machine.specs.State.{State, at_moment};
ghost use Rattle.qc_machine.specs.Step.{step};
ghost use Rattle.qc_machine.specs.Steps.{IsBetween};

/// A refused order changes nothing but the last moment seen, and a line that isn't built not that either. Moments never
/// fall. No fact is lost or changed, and each state in the midst of a step has a front of its facts (docs/RULES.md,
/// "The machine").
pub fn steps_keep_the_rules()
    ensures refused { (s : State) (order : Order) (r : Refusal) → (step s order).reply ≡ Refused r
        → (step s order).state ≡ (if is_of_line r then s else at_moment order.at s) }
    ensures moments { (s : State) (order : Order) → s.last ≤ (step s order).state.last }
    ensures facts { (s x : State) (order : Order) → IsBetween s (step s order) x
        → GoesOn s x × GoesOn x (step s order).state }
{}

/// A step keeps histories legal: its end and each state in its midst has a legal history, and is what its facts settle.
/// What recorders hold may be sent, and what players hold has come from the settled amounts (docs/RULES.md,
/// "Histories").
pub fn steps_keep_histories_legal()
    ensures { (read : Reader) (s x : State) (order : Order) → ReadsOrderly read → IsInRange order s
        → IsSettled read s → IsBetween s (step s order) x → IsSettled read x }
{}

/// What is listed of a table stands in byte order of keys, whatever facts led there, and no row of a history's tables
/// has 0 (docs/RULES.md, "Rows").
pub fn tables_are_listed_in_order()
    ensures order { (facts : List Fact) (name : List ℕ)
        → keys_ascend (rows_shown name (history_of by_text facts).tables) ≡ true }
    ensures canonical { (facts : List Fact) → are_canonical (history_of by_text facts).tables ≡ true }
{}

/// In a legal history each message that was sent stands in one place: one of the seven queues of its application, or
/// what that has consumed. Nothing else stands there, and what is consumed was played once (docs/RULES.md,
/// "Histories").
pub fn messages_stand_in_one_place()
    ensures { (read : Reader) (facts : List Fact) → ReadsOrderly read → is_legal read facts ≡ true
        → EachOnce read facts }
{}

/// In a legal history the total of each table, and of each resource, is the one with which it opened, and what each
/// fact Played has changed of it: no other fact changes a total (docs/RULES.md, "Histories").
pub fn totals_are_settled()
    ensures { (read : Reader) (facts : List Fact) → is_legal read facts ≡ true → TotalsSettled read facts }
{}

/// The resources of a history have the rows that its catalogue names, in the same order, whatever facts led there. A
/// row has an amount exactly where it has one in the opening (docs/RULES.md, "Histories").
pub fn resources_keep_their_rows()
    ensures places { (facts : List Fact) → map places_of (history_of by_text facts).outside
        ≡ map places_of (opened_resources (history_of by_text facts).catalogue) }
    ensures amounts { (facts : List Fact) (resource key : List ℕ)
        → is_some (outside_amount (history_of by_text facts).outside resource key)
        ≡ is_some (outside_amount (opened_resources (history_of by_text facts).catalogue) resource key) }
{}

/// The batches of a move have its ids, each once and in order. Each is of the size asked for, but that the last may be
/// smaller, and none is empty (docs/RULES.md, "Mover").
pub fn batches_have_all_ids_in_order()
    ensures joined { (size : ℕ) (ids : List ℕ) → 1 ≤ size → flat_map (λ batch. batch) (batches size ids) ≡ ids }
    ensures sizes { (size : ℕ) (ids : List ℕ) → 1 ≤ size → AreOfSize size (batches size ids) }
{}

/// In a legal history each message can be played by the catalogue in force in the way that its place asks for: a final
/// attempt too has a script for each of its calls (docs/RULES.md, "What an attempt plays").
pub fn each_message_can_be_played()
    ensures { (facts : List Fact) (id : ℕ) (m : Message) → is_legal by_text facts ≡ true
        → message_of id (history_of by_text facts).messages ≡ Some m
        → is_playable (history_of by_text facts).catalogue m.recording (kind_at m.place) ≡ true }
{}

// Worked orders, computed from the definitions. Nothing runs here: the contracts are the equations.
ghost use Rattle.std.specs.Prelude.{◌≡◌, ◌+◌, [], ◌∷◌, ◌++◌, length, map, codes};
ghost use Rattle.qc_machine.specs.Moving.{batches};
ghost use Rattle.qc_machine.specs.Step.{step};
ghost use Rattle.qc_machine.specs.Worked.{made, made_with, after, replies, listed, queues, placing, taking, play, eighteen, waits_for_last, last_orders, last_replies, last_calls, last_worked, dead, failing_catalogue, waits_to_fail, failed_replies};
ghost use Rattle.qc_machine.specs.WorkedMoves.{five, all_five, one_held, to_the_dead, back, held_stays, held_to_the_end, held_replies, to_itself, itself_replies, failed_four_times, begin_anew, begun_anew, on_the_way, of_both, moves_of_bills, bills_replies, refused_moves, refusals, with_room, too_full};

/// A message that always fails is tried eighteen times. Then its exception class plays its own script and the recorded
/// calls; where its component names none, the message is dead (docs/RULES.md, "Retry rule").
pub fn a_last_attempt_plays_the_exception_class()
    ensures played { replies waits_for_last last_orders ≡ last_replies }
    ensures calls { replies waits_for_last last_calls ≡ last_worked }
    ensures without { listed (after made (taking ∷ eighteen)) ≡ dead }
{}

/// Where the exception class's scripts fail too, the message is dead, and all tables are as they were, though the call
/// before the one that failed had changed a row (docs/RULES.md, "Retry rule").
pub fn a_last_attempt_that_fails_changes_no_table()
    ensures replies { replies waits_to_fail last_orders ≡ failed_replies }
    ensures tables { (after waits_to_fail (play 5580 ∷ [])).history.tables
        ≡ (made_with failing_catalogue).history.tables }
{}

/// Of five messages all are moved to the dead queue but the one that an attempt holds. A batch is one fact
/// (docs/RULES.md, "Mover").
pub fn held_messages_are_not_moved()
    ensures replies { replies one_held (to_the_dead 3 ∷ queues ∷ []) ≡ codes "moved 4" ∷ held_stays ∷ [] }
    ensures facts { length (after one_held (to_the_dead 3 ∷ [])).history.facts ≡ length five.history.facts + 2 }
{}

/// A message is held until what follows the end of its attempt is done, also while its fact stands already
/// (docs/RULES.md, "Mover").
pub fn a_message_is_held_until_its_attempt_is_finished()
    ensures { replies made held_to_the_end ≡ held_replies }
{}

/// A queue's messages may be moved to itself: they are then due anew. Without messages there is no fact.
pub fn a_move_may_lead_to_its_source()
    ensures replies { replies made (to_itself 0 ∷ taking ∷ to_itself 9 ∷ queues ∷ []) ≡ itself_replies }
    ensures facts { (after made (to_itself 0 ∷ [])).history.facts ≡ made.history.facts }
{}

/// A message that is moved has no tries, and is due at the moment of the move, whatever it was before
/// (docs/RULES.md, "Places").
pub fn a_moved_message_begins_anew()
    ensures { replies failed_four_times begin_anew ≡ begun_anew }
{}

/// A move stays within its application, and changes the messages of no other one (docs/RULES.md, "Mover").
pub fn a_move_stays_within_its_application()
    ensures { replies of_both moves_of_bills ≡ bills_replies }
{}

/// A move there and back, and what a crash may leave on the way back: a front of its batches.
pub fn a_move_goes_batch_by_batch()
    ensures replies { replies five (to_the_dead 5 ∷ back ∷ queues ∷ [])
        ≡ codes "moved 5" ∷ codes "moved 5" ∷ all_five ∷ [] }
    ensures midst { map listed (step (after five (to_the_dead 5 ∷ [])) back).through ≡ on_the_way }
    ensures cut { batches 2 (1 ∷ 2 ∷ 3 ∷ 4 ∷ 5 ∷ []) ≡ (1 ∷ 2 ∷ []) ∷ (3 ∷ 4 ∷ []) ∷ (5 ∷ []) ∷ [] }
{}

/// A move is refused by its queues and its batch (docs/RULES.md, "Refusals").
pub fn moves_are_refused()
    ensures { replies five refused_moves ≡ refusals }
{}

/// A move is refused by the room for all of its batches together, beside what held attempts set aside (docs/RULES.md,
/// "Room").
pub fn a_move_takes_room_for_all_its_batches()
    ensures enough { replies (with_room 96 five) (to_the_dead 3 ∷ []) ≡ codes "moved 5" ∷ [] }
    ensures full { replies (with_room 95 five) (to_the_dead 3 ∷ queues ∷ []) ≡ too_full }
    ensures enough_for_each { replies (with_room 180 five) (to_the_dead 1 ∷ []) ≡ codes "moved 5" ∷ [] }
    ensures full_for_each { replies (with_room 179 five) (to_the_dead 1 ∷ queues ∷ []) ≡ too_full }
    ensures enough_beside { replies (with_room 123 one_held) (to_the_dead 3 ∷ []) ≡ codes "moved 4" ∷ [] }
    ensures full_beside { replies (with_room 122 one_held) (to_the_dead 3 ∷ queues ∷ []) ≡ too_full }
{}

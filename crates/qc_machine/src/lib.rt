//! The machine: what an order does, as definitions that contracts cite.
//!
//! Nothing here runs but copies of small values. `specs/` has the machine by what it speaks of:
//!
//! - `History`: facts, what they settle, and which may follow.
//! - `Orderly`, `Once`: what a legal history keeps of its messages and of its totals.
//! - `State`, `Steps`: a state, a step, and the states in its midst that a crash may leave.
//! - `Attempts`, `Holding`: attempts, which message is chosen, and what holds of those that are held.
//! - `Refuse`, `Slots`, `Names`, `Rooms`: refusals by slots, by names and for want of room; then each family of orders:
//!   `Recording` and `Sending` (with `Recorded`), `Taking`, `Playing`, `Moving`, `Switching`, `Listing`. `Step` puts
//!   them together.
//! - `Laws`: what the laws of steps speak of.
//! - `Sites`: the history that a site stands for, the state that it is read as, and what a crash leaves of it.
//! - `Opening`: where the files of a site stop being a history.
//! - `LogAndRows`: the log of compensations with the outside rows; `Carrying` and `Preparing`: effects of a call, and
//!   the votes of resources; `Underway`: an attempt from its first call to its phase, with all that it does there. The
//!   orders don't use these yet: an attempt that would change something outside isn't built.
//! - `OwnLines`: the lines of one attempt. `Sound`: when history, log and outside rows agree. `Finishable`: what a
//!   crash may leave of them, for a recovery to finish.
//! - `Worked`, `WorkedMoves`, `WorkedEffects`: worked orders and attempts, which the functions of `worked` and
//!   `worked_effects` compute.
//!
//! What holds of every step stands on `steps_keep_the_rules` and `steps_keep_histories_legal` (docs/RULES.md, "The
//! machine"), what holds of every legal history on `messages_stand_in_one_place`, `totals_are_settled` and
//! `each_message_can_be_played` ("Histories"), which outside rows a history has on `resources_keep_their_rows`, that
//! listings of tables stand in order on `tables_are_listed_in_order`, and how a move is cut into batches on
//! `batches_have_all_ids_in_order`. What holds of a log beside its history, and of what a crash may leave of the two,
//! stands on the functions of `sound_laws` (docs/RULES.md, "Recovery").
#![tactic(auto)]

mod error;
mod laws;
mod limits;
mod sound_laws;
mod worked;
mod worked_effects;

pub use error::OpenError;
pub use laws::{
    batches_have_all_ids_in_order, each_message_can_be_played, messages_stand_in_one_place,
    resources_keep_their_rows, steps_keep_histories_legal, steps_keep_the_rules,
    tables_are_listed_in_order, totals_are_settled,
};
pub use limits::Limits;
pub use sound_laws::{
    a_fact_that_commits_nothing_keeps_a_site_sound, a_log_is_of_a_longer_history,
    a_phase_may_be_put_again, a_recovered_site_is_sound, a_recovery_may_be_cut_short,
    each_write_keeps_what_can_be_finished, settling_keeps_rows_there,
    unfinished_attempts_are_told_in_order, what_can_be_finished_is_sound,
    where_all_is_done_rows_are_settled,
};
pub use worked::{
    a_last_attempt_plays_the_exception_class, a_last_attempt_that_fails_changes_no_table,
    a_message_is_held_until_its_attempt_is_finished, a_move_goes_batch_by_batch,
    a_move_may_lead_to_its_source, a_move_stays_within_its_application,
    a_move_takes_room_for_all_its_batches, a_moved_message_begins_anew,
    held_messages_are_not_moved, moves_are_refused,
};
pub use worked_effects::{
    a_failed_attempt_is_put_back, a_force_takes_along_what_waits,
    a_late_row_is_put_in_the_commit_phase, an_attempt_may_be_forced_to_abort,
    an_attempt_that_is_not_ready_is_put_back, an_early_row_is_put_at_once,
    forgotten_records_are_not_delivered, later_records_are_put_behind_earlier_ones,
    resources_hear_in_order_of_registration,
};

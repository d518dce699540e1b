// The state of an attempt between its calls.
ghost use Rattle.std.specs.Prelude.{◌≡◌, ◌≤◌, ◌+◌, ◌*◌, ◌++◌, length, IfOk, OnOk, OnErr, IfErr, [], false};
ghost use Rattle.std.specs.Prelude.{vec_len, vec_capacity};
ghost use Rattle.qc_script.specs.Naming.{effects};
ghost use Rattle.qc_play.specs.Board.{applied, play_of, HasRoom, Grows, Begins};
ghost use Rattle.qc_play.specs.Play.{run_call, run_steps, ran, failed_at, with_amount};

use crate::board::Board;
use crate::did::Did;
use crate::effect::Effect;
use crate::record::PlayRecord;
use qc_base::{Amount, Arg, NoMemory, Row};
use qc_script::{Script, Step, same_row};
use std::alloc::Global;
use std::marker::Model;

// A script has at most 32 steps. Each writes at most two rows, and has at most one effect.
const WRITES: usize = 64;

const EFFECTS: usize = 32;

/// What an attempt sees of its rows, and what it did so far (docs/RULES.md, "Work"). Contracts see the play state, and
/// room for how many more effects there is.
///
/// Running a call takes no memory. Its writes are kept beside the view until it has succeeded, so the view isn't copied
/// and a call that fails has nothing to undo; the records are, since a call may forget one.
#[derive(Debug, Drop)]
pub struct CallState {
    view: Vec<(Row, Option<Amount>)>,
    records: Vec<PlayRecord>,
    forced: bool,
    effects: Vec<Effect>,
    // Of the call that runs.
    board: Board,
}

impl Model for CallState {
    ghost use Rattle.std.specs.Prelude.{◌≡◌, ◌≤◌, ◌-◌, vec_len, vec_capacity};
    ghost use Rattle.qc_play.specs.State.{StateView};

    ghost Value = { StateView };

    ghost view = { λ s. record {
      play = record { view = s.view.items; records = s.records.items; forced = s.forced; effects = s.effects.items };
      room = vec_capacity s.records - vec_len s.records;
    } };

    ghost invariant = { λ s. (vec_len s.records ≤ vec_capacity s.records)
        × (vec_capacity s.board.records ≡ vec_capacity s.records) × (vec_capacity s.records ≤ 4294967295)
        × (64 ≤ vec_capacity s.board.writes) × (32 ≤ vec_capacity s.board.effects) × (32 ≤ vec_capacity s.effects) };
}

impl CallState {
    /// The state before the first call, over these rows with their amounts, with room for so many effects over all
    /// calls. Room for more than 4,294,967,295 is want of memory.
    pub fn make(
        alloc: Global,
        rows: &[(Row, Option<Amount>)],
        room: usize,
    ) -> Result<CallState, NoMemory>
        ensures play { IfOk result
            (λ s. s.play ≡ record { view = rows.now; records = []; forced = false; effects = [] }) }
        ensures room { IfOk result (λ s. s.room ≡ room) }
    {
        if room > 4_294_967_295 {
            return Err(NoMemory);
        }
        let view = Vec::from_slice(alloc, rows).map_err(|_| NoMemory)?;
        let records = Vec::with_capacity(alloc, room).map_err(|_| NoMemory)?;
        let copied = Vec::with_capacity(alloc, room).map_err(|_| NoMemory)?;
        let writes = Vec::with_capacity(alloc, WRITES).map_err(|_| NoMemory)?;
        let shown = Vec::with_capacity(alloc, EFFECTS).map_err(|_| NoMemory)?;
        let effects = Vec::with_capacity(alloc, EFFECTS).map_err(|_| NoMemory)?;
        Ok(CallState {
            view,
            records,
            forced: false,
            effects,
            board: Board {
                writes,
                records: copied,
                forced: false,
                effects: shown,
            },
        })
    }

    /// The rows with their amounts, in the order in which they were given.
    pub fn view(&self) -> &[(Row, Option<Amount>)]
        ensures { result.now ≡ self.now.play.view }
    {
        self.view.as_slice()
    }

    /// The outside changes of all calls that succeeded, in order.
    pub fn records(&self) -> &[PlayRecord]
        ensures { result.now ≡ self.now.play.records }
    {
        self.records.as_slice()
    }

    /// The effects of the last call that succeeded, in order.
    pub fn effects(&self) -> &[Effect]
        ensures { result.now ≡ self.now.play.effects }
    {
        self.effects.as_slice()
    }

    /// For how many more effects there is room.
    pub fn room(&self) -> usize
        ensures { result ≡ self.now.room }
    {
        self.records.capacity() - self.records.len()
    }

    /// Whether `abort` ran in any call that succeeded.
    pub fn forced(&self) -> bool
        ensures { result ≡ self.now.play.forced }
    {
        self.forced
    }
}

// All rows of the view that are this one get the amount.
fn write_row(view: &mut [(Row, Option<Amount>)], row: &Row, amount: Amount)
    ensures { view.new ≡ with_amount row.now amount view.old }
{
    for seen in view.iter_mut() {
        if same_row(&seen.0, row) {
            seen.1 = Some(amount);
        }
    }
}

fn write_rows(view: &mut [(Row, Option<Amount>)], writes: &[(Row, Amount)])
    ensures { view.new ≡ applied writes.now view.old }
{
    for write in writes {
        write_row(view, &write.0, write.1);
    }
}

// The steps on the board. The error is the step at which they fail, counted from 1; the board is open then.
fn run_steps(
    board: &mut Board,
    view: &[(Row, Option<Amount>)],
    args: &[Arg],
    steps: &[Step],
) -> Result<(), u8>
    requires few { length steps.now ≤ 32 }
    requires room { HasRoom board.old (2 * length steps.now) (effects steps.now) }
    ensures ran { OnOk result
        (run_steps args.now false 1 steps.now (play_of view.now board.old) ≡ ran (play_of view.now board.new)) }
    ensures failed { IfErr result
        (λ step. run_steps args.now false 1 steps.now (play_of view.now board.old) ≡ failed_at step) }
    ensures grown { Grows board.old board.new (2 * length steps.now) (effects steps.now) }
{
    let mut skipping = false;
    let mut number: u8 = 0;
    for step in steps {
        number += 1;
        if skipping {
            skipping = false;
            continue;
        }
        match board.step(view, args, step) {
            Did::Goes => {}
            Did::Skips => skipping = true,
            Did::Fails => return Err(number),
        }
    }
    Ok(())
}

/// Runs one call, the next of the attempt (docs/FORMATS.md, "Scripts"). It needs room for the script's effects. The
/// error is the number of the step at which it fails; the state is as before then. A parameter that has no argument of
/// its kind counts as 0, or names no row, and a row that isn't in the view has no amount, so a step that changes it
/// fails.
pub fn run_call(script: &Script, args: &[Arg], state: &mut CallState) -> Result<(), u8>
    requires { effects script.now ≤ state.old.room }
    ensures ran { OnOk result (run_call script.now args.now state.old.play ≡ ran state.new.play) }
    ensures room { OnOk result (state.old.room ≤ state.new.room + effects script.now) }
    ensures failed { IfErr result (λ step. run_call script.now args.now state.old.play ≡ failed_at step) }
    ensures unchanged { OnErr result (state.new ≡ state.old) }
{
    begin(&mut state.board, state.records.as_slice(), state.forced);
    run_steps(
        &mut state.board,
        state.view.as_slice(),
        args,
        script.steps(),
    )?;
    write_rows(state.view.as_mut_slice(), state.board.writes.as_slice());
    std::mem::swap(&mut state.records, &mut state.board.records);
    std::mem::swap(&mut state.effects, &mut state.board.effects);
    state.forced = state.board.forced;
    Ok(())
}

// An empty board over these records.
fn begin(board: &mut Board, records: &[PlayRecord], forced: bool)
    requires { length records.now ≤ vec_capacity board.old.records }
    ensures begun { Begins records.now forced board.old board.new }
{
    board.writes.clear();
    board.effects.clear();
    board.records.clear();
    put_records(&mut board.records, records);
    board.forced = forced;
}

// Records behind those that are there. The vector has room for them, and its room stays as it is.
fn put_records(all: &mut Vec<PlayRecord>, records: &[PlayRecord])
    requires { vec_len all.old + length records.now ≤ vec_capacity all.old }
    ensures items { all.new.items ≡ all.old.items ++ records.now }
    ensures room { vec_capacity all.new ≡ vec_capacity all.old }
{
    for record in records {
        all.push_reserved(*record);
    }
}

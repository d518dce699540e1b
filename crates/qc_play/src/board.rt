// A call while it runs.
ghost use Rattle.std.specs.Prelude.{◌≡◌, ◌+◌, ◌≤◌, ◌<◌, ◌≤ℤ◌, ◌++◌, ◌∷◌, [], ◌&&◌, ◌==◌, pos, negsuc, length};
ghost use Rattle.std.specs.Prelude.{vec_len, vec_capacity, count_by};
ghost use Rattle.qc_base.specs.declared.recording.Space.TheVariants.{Inside as inside, Outside as outside};
ghost use Rattle.qc_script.specs.Naming.{row_of, effect_of};
ghost use Rattle.qc_play.specs.Board.{applied, play_of, HasRoom, Grows, Changes, Steps};
ghost use Rattle.qc_play.specs.Play.{change_row, change_outside, is_of, kept_last, forget, retract_last, new_record};
ghost use Rattle.qc_play.specs.Play.{worth, shifted, do_step};
ghost use Rattle.qc_play.specs.declared.effect.Effect.TheVariants.{Change as ChangeEffect};

use crate::change::{Change, new_amount};
use crate::did::Did;
use crate::effect::Effect;
use crate::record::PlayRecord;
use crate::worth::{holds, look_up, worth};
use qc_base::{Amount, Arg, LogRecord, Name, Row, Space};
use qc_script::{Cell, Expression, Step, row_of};

/// What a call has written so far, over a view that stays as it is until the call has succeeded: so a call that fails
/// has nothing to undo. All that is pushed has room from the start.
#[derive(Debug, Drop)]
pub struct Board {
    /// Rows with their new amounts, in order; the last one of a row counts.
    pub writes: Vec<(Row, Amount)>,
    /// The records of all calls, this one's among them.
    pub records: Vec<PlayRecord>,
    /// Whether `abort` ran in any call, this one among them.
    pub forced: bool,
    /// The effects of this call.
    pub effects: Vec<Effect>,
}

// Whether a record is of this resource.
fn is_of(record: &PlayRecord, resource: &Name) -> bool
    ensures { result ≡ is_of resource.now record.now }
{
    record.resource.as_bytes() == resource.as_bytes()
}

// Whether it's the one of this resource with this number.
fn is_numbered(record: &PlayRecord, resource: &Name, seq: u32) -> bool
    ensures { result ≡ (is_of resource.now record.now && (record.now.entry.seq == seq)) }
{
    is_of(record, resource) && record.entry.seq == seq
}

impl Board {
    // A row changes. False where it would leave the range, or has no amount.
    fn change(
        &mut self,
        view: &[(Row, Option<Amount>)],
        row: Option<Row>,
        change: Change,
        number: i128,
    ) -> bool
        requires low { negsuc 99999999999999999999999999999999999 ≤ℤ number }
        requires high { number ≤ℤ pos 99999999999999999999999999999999999 }
        requires room { vec_len self.old.writes < vec_capacity self.old.writes }
        ensures told { Changes view.now (change_row row change number (play_of view.now self.old)) self.new result }
        ensures grown { Grows self.old self.new 1 0 }
    {
        let Some(row) = row else {
            return false;
        };
        let old = look_up(view, self.writes.as_slice(), &row);
        let Some(new) = new_amount(change, number, old) else {
            return false;
        };
        self.writes.push_reserved((row, new));
        true
    }

    fn add(
        &mut self,
        view: &[(Row, Option<Amount>)],
        args: &[Arg],
        cell: &Cell,
        change: Change,
        sum: &Expression,
    ) -> bool
        requires room { vec_len self.old.writes < vec_capacity self.old.writes }
        ensures told { Changes view.now
            (change_row (row_of inside args.now cell.now) change
            (worth args.now (applied self.old.writes.items view.now) sum.now) (play_of view.now self.old))
            self.new result }
        ensures grown { Grows self.old self.new 1 0 }
    {
        let number = worth(args, view, self.writes.as_slice(), sum.as_slice());
        self.change(view, row_of(Space::Inside, args, cell), change, number)
    }

    // Both rows by one number: it is worked out before either changes.
    fn shift(
        &mut self,
        view: &[(Row, Option<Amount>)],
        args: &[Arg],
        from: &Cell,
        to: &Cell,
        sum: &Expression,
    ) -> bool
        requires room { vec_len self.old.writes + 2 ≤ vec_capacity self.old.writes }
        ensures told { Changes view.now
            (shifted args.now from.now to.now sum.now (play_of view.now self.old)) self.new result }
        ensures grown { Grows self.old self.new 2 0 }
    {
        let number = worth(args, view, self.writes.as_slice(), sum.as_slice());
        if !self.change(
            view,
            row_of(Space::Inside, args, from),
            Change::Fall,
            number,
        ) {
            return false;
        }
        self.change(view, row_of(Space::Inside, args, to), Change::Rise, number)
    }

    // The number of the next record of a resource.
    fn next_of(&self, resource: &Name) -> u32
        requires { vec_len self.now.records < 4294967295 }
        ensures { result ≡ count_by (is_of resource.now) self.now.records.items + 1 }
    {
        let mut next = 1;
        for record in self.records.iter() {
            if is_of(record, resource) {
                next += 1;
            }
        }
        next
    }

    fn add_record(&mut self, row: &Row, old: Amount, new: Amount)
        requires room { HasRoom self.old 0 1 }
        ensures records { self.new.records.items
            ≡ self.old.records.items ++ new_record row.now old new self.old.records.items ∷ [] }
        ensures effects { self.new.effects.items
            ≡ self.old.effects.items ++ ChangeEffect row.now.name row.now.key old new ∷ [] }
        ensures writes { self.new.writes.items ≡ self.old.writes.items }
        ensures forced { self.new.forced ≡ self.old.forced }
        ensures grown { Grows self.old self.new 0 1 }
    {
        let entry = LogRecord {
            seq: self.next_of(&row.name),
            flags: 0,
            key: row.key,
            old,
            new,
        };
        self.records.push_reserved(PlayRecord {
            resource: row.name,
            entry,
            forgotten: false,
        });
        self.effects.push_reserved(Effect::Change {
            resource: row.name,
            key: row.key,
            old,
            new,
        });
    }

    // An outside row changes, with a record and an effect, also where its amount stays the same.
    fn change_outside(
        &mut self,
        view: &[(Row, Option<Amount>)],
        row: Option<Row>,
        change: Change,
        number: i128,
    ) -> bool
        requires low { negsuc 99999999999999999999999999999999999 ≤ℤ number }
        requires high { number ≤ℤ pos 99999999999999999999999999999999999 }
        requires room { HasRoom self.old 1 1 }
        ensures told { Changes view.now (change_outside row change number (play_of view.now self.old)) self.new result }
        ensures grown { Grows self.old self.new 1 1 }
    {
        let Some(row) = row else {
            return false;
        };
        let Some(old) = look_up(view, self.writes.as_slice(), &row) else {
            return false;
        };
        let Some(new) = new_amount(change, number, Some(old)) else {
            return false;
        };
        self.writes.push_reserved((row, new));
        self.add_record(&row, old, new);
        true
    }

    fn out(
        &mut self,
        view: &[(Row, Option<Amount>)],
        args: &[Arg],
        cell: &Cell,
        change: Change,
        sum: &Expression,
    ) -> bool
        requires room { HasRoom self.old 1 1 }
        ensures told { Changes view.now
            (change_outside (row_of outside args.now cell.now) change
            (worth args.now (applied self.old.writes.items view.now) sum.now) (play_of view.now self.old))
            self.new result }
        ensures grown { Grows self.old self.new 1 1 }
    {
        let number = worth(args, view, self.writes.as_slice(), sum.as_slice());
        self.change_outside(view, row_of(Space::Outside, args, cell), change, number)
    }

    // The last record of a resource, where it isn't forgotten.
    fn kept_last(&self, resource: &Name) -> Option<LogRecord>
        ensures { result ≡ kept_last resource.now self.now.records.items }
    {
        let mut last = None;
        for record in self.records.iter() {
            if is_of(record, resource) {
                last = if record.forgotten {
                    None
                } else {
                    Some(record.entry)
                };
            }
        }
        last
    }

    fn forget(&mut self, resource: &Name, seq: u32)
        ensures records { self.new.records.items ≡ forget resource.now seq self.old.records.items }
        ensures writes { self.new.writes.items ≡ self.old.writes.items }
        ensures effects { self.new.effects.items ≡ self.old.effects.items }
        ensures forced { self.new.forced ≡ self.old.forced }
        ensures grown { Grows self.old self.new 0 0 }
    {
        for record in self.records.iter_mut() {
            if is_numbered(record, resource, seq) {
                record.forgotten = true;
            }
        }
    }

    // The last record of a resource is forgotten, and its row has the old amount again.
    fn retract(&mut self, view: &[(Row, Option<Amount>)], resource: &Name) -> bool
        requires room { HasRoom self.old 1 1 }
        ensures told { Changes view.now (retract_last resource.now (play_of view.now self.old)) self.new result }
        ensures grown { Grows self.old self.new 1 1 }
    {
        let Some(entry) = self.kept_last(resource) else {
            return false;
        };
        let row = Row {
            space: Space::Outside,
            name: *resource,
            key: entry.key,
        };
        self.writes.push_reserved((row, entry.old));
        self.forget(resource, entry.seq);
        self.effects.push_reserved(Effect::Retract {
            resource: *resource,
        });
        true
    }

    /// Does one step over the view.
    pub fn step(&mut self, view: &[(Row, Option<Amount>)], args: &[Arg], step: &Step) -> Did
        requires room { HasRoom self.old 2 (length (effect_of step.now)) }
        ensures told { Steps view.now (do_step args.now step.now (play_of view.now self.old)) self.old self.new result }
        ensures grown { Grows self.old self.new 2 (length (effect_of step.now)) }
    {
        let done = match step {
            Step::Need(test) => holds(args, view, self.writes.as_slice(), test),
            Step::When(test) => {
                if !holds(args, view, self.writes.as_slice(), test) {
                    return Did::Skips;
                }
                true
            }
            Step::Add(cell, sum) => self.add(view, args, cell, Change::Rise, sum),
            Step::Sub(cell, sum) => self.add(view, args, cell, Change::Fall, sum),
            Step::Set(cell, sum) => self.add(view, args, cell, Change::Become, sum),
            Step::Move(from, to, sum) => self.shift(view, args, from, to, sum),
            Step::Grow(cell, sum) => self.out(view, args, cell, Change::Rise, sum),
            Step::Shrink(cell, sum) => self.out(view, args, cell, Change::Fall, sum),
            Step::Retract(resource) => self.retract(view, resource),
            Step::Fail => false,
            Step::Abort => {
                self.forced = true;
                true
            }
        };
        if done { Did::Goes } else { Did::Fails }
    }
}

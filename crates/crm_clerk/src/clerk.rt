// The clerk of an attempt.
ghost use Rattle.std.specs.Prelude.{◌≡◌, ◌≤◌, ◌==◌, List, [], ◌∷◌, ◌++◌, map, length, true, option_map};
ghost use Rattle.std.specs.Prelude.{IfOk, IfSome, OnOk};
ghost use Rattle.std.specs.List.{list_any};
ghost use Rattle.qc_base.specs.LogLines.{registrations, unforgotten};
ghost use Rattle.qc_base.specs.Spelling.{is_attempt};
ghost use Rattle.qc_base.specs.declared.log_line.LogLine.{LogLine};
ghost use Rattle.qc_frame.specs.Calls.{LogStands, Forces};
ghost use Rattle.crm_log.specs.Lines.{staged_line};
ghost use Rattle.crm_log.specs.Log.{IsLogOf, LinesWait};
ghost use Rattle.crm_log.specs.Parts.{are_phases};
ghost use Rattle.crm_clerk.specs.Clerk.{new_clerk, registering_lines, writing_lines, forgetting_lines, forgot_line};
ghost use Rattle.crm_clerk.specs.Clerk.{unless, last_kept, finishing_lines};
ghost use Rattle.crm_clerk.specs.Staging.{HasRoomFor, TakesRoom, staged_lines};
ghost use Rattle.crm_clerk.specs.Limits.{numbers_fit};
ghost use Rattle.crm_clerk.specs.Calls.{Stages, HasStaged, registers, writes, forgets_last};

use crate::book::Book;
use crate::error::ClerkError;
use crate::limits::within_limits;
use crate::lines::Lines;
use crm_log::CrmLog;
use qc_base::{Amount, LogLine, LogRecord, Name, NoMemory, Text};
use qc_site::{Failed, Site};
use std::alloc::Global;
use std::marker::Model;

/// The clerk of one attempt: it writes the attempt's lines to the log of compensations, and knows what they say.
///
/// Contracts see the attempt and the message that it is on, all lines that the clerk has staged, in order, and how many
/// more registrations and records there is room for. A line that was staged is one of the log's once the log was
/// forced. Only `begin` takes memory.
#[derive(Drop)]
pub struct Clerk {
    attempt: u64,
    id: u64,
    book: Book,
    lines: Lines,
}

impl Model for Clerk {
    ghost use Rattle.crm_clerk.specs.Clerk.{ClerkView};
    ghost use Rattle.crm_clerk.specs.Keeps.{Keeps};

    ghost Value = { ClerkView };

    ghost view = { λ c. record { attempt = c.attempt; id = c.id; lines = c.lines.lines; room = c.book.room } };

    ghost invariant = { λ c. Keeps c.attempt c.lines.lines c.book.accounts };
}

// A line more waits in the log.
fn stage(log: &mut CrmLog, lines: &mut Lines, line: &LogLine)
    requires limits { numbers_fit line.now ≡ true }
    requires log { HasRoomFor 1 log.old }
    ensures lines { lines.new.lines ≡ lines.old.lines ++ line.now ∷ [] }
    ensures log { log.new ≡ staged_line log.old line.now }
    ensures room { TakesRoom 1 log.old log.new }
    ensures waits { (waiting : List LogLine) → LinesWait log.old waiting
        → LinesWait log.new (waiting ++ line.now ∷ []) }
{
    within_limits(line);
    log.stage_line(line);
    *lines = lines.and(line);
}

// And Opened, unless it is there.
fn stage_opened(log: &mut CrmLog, lines: &mut Lines, opened: bool, line: &LogLine)
    requires limits { numbers_fit line.now ≡ true }
    requires log { HasRoomFor (length (unless opened line.now)) log.old }
    ensures lines { lines.new.lines ≡ lines.old.lines ++ unless opened line.now }
    ensures log { log.new ≡ staged_lines log.old (unless opened line.now) }
    ensures room { TakesRoom (length (unless opened line.now)) log.old log.new }
    ensures waits { (waiting : List LogLine) → LinesWait log.old waiting
        → LinesWait log.new (waiting ++ unless opened line.now) }
{
    if opened {
        return;
    }
    stage(log, lines, line);
}

impl Clerk {
    /// A clerk that has staged nothing, for an attempt, 1 to 2^63 - 1, on a message, with room for so many
    /// registrations and records together. Room for more than 4,294,967,295 is want of memory.
    pub fn begin(alloc: Global, attempt: u64, id: u64, room: usize) -> Result<Clerk, NoMemory>
        requires { is_attempt attempt ≡ true }
        ensures { IfOk result (λ clerk. clerk ≡ new_clerk attempt id room) }
    {
        let book = Book::make(alloc, room)?;
        Ok(Clerk {
            attempt,
            id,
            book,
            lines: Lines::none(),
        })
    }

    /// Registers the compensator of a resource for these phases, 1 to 7: prepare is 1, commit is 2, abort is 4, added
    /// up. The attempt's first registration writes Opened before Registered.
    ///
    /// `AlreadyRegistered` comes exactly where the attempt has registered the resource before, and no other error. It
    /// needs room for one in the clerk, and room for the lines in the log, whose end was reached.
    pub fn register(
        &mut self,
        log: &mut CrmLog,
        resource: &Name,
        phases: u8,
    ) -> Result<(), ClerkError>
        requires phases { are_phases phases ≡ true }
        requires room { 1 ≤ self.old.room }
        requires log { HasRoomFor (length (registering_lines self.old resource.now phases)) log.old }
        ensures answer { result ≡ registers self.old resource.now }
        ensures stages { Stages (registering_lines self.old resource.now phases) 1 result
            self.old log.old self.new log.new }
    {
        if self.book.written(resource).is_some() {
            return Err(ClerkError::AlreadyRegistered);
        }
        let opened = !self.book.registered().is_empty();
        stage_opened(
            log,
            &mut self.lines,
            opened,
            &LogLine::Opened(self.attempt, self.id),
        );
        stage(
            log,
            &mut self.lines,
            &LogLine::Registered(self.attempt, *resource, phases),
        );
        self.book.add(resource, phases);
        Ok(())
    }

    /// Writes a record of a row of a resource, with its amount before and after the change. Tells the record's number,
    /// from 1 for each resource by itself; a number that was forgotten isn't given again.
    ///
    /// `NotRegistered` comes exactly where the attempt hasn't registered the resource, and no other error. It needs
    /// room for one in the clerk, and room for the line in the log, whose end was reached.
    pub fn write_record(
        &mut self,
        log: &mut CrmLog,
        resource: &Name,
        key: &Text,
        old: Amount,
        new: Amount,
    ) -> Result<u32, ClerkError>
        requires room { 1 ≤ self.old.room }
        requires log { HasRoomFor 1 log.old }
        ensures answer { result ≡ writes self.old resource.now }
        ensures stages { Stages (writing_lines self.old resource.now key.now old new) 1 result
            self.old log.old self.new log.new }
    {
        let Some(entry) = self.book.write(resource, key, old, new) else {
            return Err(ClerkError::NotRegistered);
        };
        let seq = entry.seq;
        stage(
            log,
            &mut self.lines,
            &LogLine::Written(self.attempt, *resource, entry),
        );
        Ok(seq)
    }

    /// Forgets the last record of a resource.
    ///
    /// `NotRegistered` comes exactly where the attempt hasn't registered the resource, and otherwise `NothingToForget`
    /// exactly where it has written no record of it, or the last one was forgotten. It needs room for the line in the
    /// log, whose end was reached.
    pub fn forget_last(&mut self, log: &mut CrmLog, resource: &Name) -> Result<(), ClerkError>
        requires { HasRoomFor 1 log.old }
        ensures answer { result ≡ forgets_last self.old resource.now }
        ensures stages { Stages (forgetting_lines self.old resource.now) 0 result
            self.old log.old self.new log.new }
    {
        let Some(written) = self.book.written(resource) else {
            return Err(ClerkError::NotRegistered);
        };
        let Some(last) = self.book.records(resource).last() else {
            return Err(ClerkError::NothingToForget);
        };
        if last.seq != written {
            return Err(ClerkError::NothingToForget);
        }
        self.book.forget(resource, written);
        stage(
            log,
            &mut self.lines,
            &LogLine::Forgot(self.attempt, *resource, written),
        );
        Ok(())
    }

    /// Forgets the record of a resource that has this number, and that wasn't forgotten. It needs room for the line in
    /// the log, whose end was reached.
    pub fn forget(&mut self, log: &mut CrmLog, resource: &Name, seq: u32)
        requires there { list_any (λ r. r.seq == seq)
            (unforgotten self.old.lines self.old.attempt resource.now) ≡ true }
        requires log { HasRoomFor 1 log.old }
        ensures { HasStaged (forgot_line self.old resource.now seq ∷ []) 0 self.old log.old self.new log.new }
    {
        self.book.forget(resource, seq);
        stage(
            log,
            &mut self.lines,
            &LogLine::Forgot(self.attempt, *resource, seq),
        );
    }

    /// Makes all lines that wait in the log one group, those of other clerks among them; without any it makes no call
    /// of the site.
    ///
    /// At each moment an image has the group whole or not at all, and all else as before. On `Ok` each later crash
    /// leaves a file that has it. `Failed` comes only where the site's count of faults rose; the log is opened again
    /// then, and the clerk is of no more use.
    pub fn force_log<S: Site>(&mut self, log: &mut CrmLog, site: &mut S) -> Result<(), Failed>
        requires stands { LogStands S.Site log.old.log site.old }
        ensures clerk { self.new ≡ self.old }
        ensures forces { Forces S.Site result log.old.log site.old log.new.log site.new }
        ensures left { log.new.left ≡ log.old.left }
        ensures spells { S.told → (groups : List (List LogLine)) → (lines : List LogLine)
            → LinesWait log.old lines → 1 ≤ length lines → IsLogOf (S.shown site.old) groups
            → OnOk result (IsLogOf (S.shown site.new) (groups ++ lines ∷ [])) }
    {
        log.force(site)
    }

    /// Ends the attempt: stages Done where the attempt is opened, and nothing otherwise. The clerk is gone then, since
    /// no line of the attempt may follow. The line is one of the log's once the log was forced (`CrmLog::force`). It
    /// needs room for it in the log, whose end was reached.
    pub fn finish(self, log: &mut CrmLog)
        requires { HasRoomFor (length (finishing_lines self)) log.old }
        ensures log { log.new ≡ staged_lines log.old (finishing_lines self) }
        ensures room { TakesRoom (length (finishing_lines self)) log.old log.new }
        ensures waits { (waiting : List LogLine) → LinesWait log.old waiting
            → LinesWait log.new (waiting ++ finishing_lines self) }
    {
        if self.book.registered().is_empty() {
            return;
        }
        let mut last = Lines::none();
        stage(log, &mut last, &LogLine::Done(self.attempt));
    }

    /// How many more registrations and records there is room for.
    pub fn room(&self) -> usize
        ensures { result ≡ self.now.room }
    {
        self.book.room()
    }

    /// The records of a resource that the attempt has written and not forgotten, in written order; none of one that it
    /// hasn't registered.
    pub fn records(&self, resource: &Name) -> &[LogRecord]
        ensures { result.now ≡ unforgotten self.now.lines self.now.attempt resource.now }
    {
        self.book.records(resource)
    }

    /// The last record of a resource, where the attempt has written one and hasn't forgotten it. It may be forgotten.
    pub fn last(&self, resource: &Name) -> Option<&LogRecord>
        ensures last { option_map (λ r. r.now) result ≡ last_kept self.now.lines self.now.attempt resource.now }
        ensures kept { IfSome result (λ last. list_any (λ r. r.seq == last.now.seq)
            (unforgotten self.now.lines self.now.attempt resource.now) ≡ true) }
    {
        let Some(written) = self.book.written(resource) else {
            return None;
        };
        let Some(last) = self.book.records(resource).last() else {
            return None;
        };
        if written != last.seq {
            return None;
        }
        Some(last)
    }

    /// The resources that the attempt has registered, with their phases, in order of registration.
    pub fn registered(&self) -> &[(Name, u8)]
        ensures { result.now ≡ map (λ r. (r.resource, r.phases)) (registrations self.now.lines self.now.attempt) }
    {
        self.book.registered()
    }
}

// An effect of a call is carried out through the log of compensations. No call takes memory.
ghost use Rattle.std.specs.Prelude.{◌≡◌, ◌+◌, ◌<◌, ◌≤◌, ℕ, List, [], length, true, is_some, MatchBool};
ghost use Rattle.std.specs.List.{list_any};
ghost use Rattle.std.specs.Str.{bytes_eq};
ghost use Rattle.qc_base.specs.LogLines.{is_registered};
ghost use Rattle.qc_frame.specs.Calls.{LogStands};
ghost use Rattle.crm_log.specs.Parts.{are_phases};
ghost use Rattle.crm_clerk.specs.Calls.{HasStaged};
ghost use Rattle.crm_clerk.specs.Clerk.{forgetting_lines, last_kept};
ghost use Rattle.crm_clerk.specs.Staging.{HasRoomFor};
ghost use Rattle.crm_driver.specs.Puts.{MakesPuts};
ghost use Rattle.crm_driver.specs.RowRules.{put_of};
ghost use Rattle.qc_worker.specs.Effects.{resource_of, can_carry, effect_lines, effect_room};
ghost use Rattle.qc_worker.specs.Effects.{first_lines, first_room, change_lines, put_back, retract_puts};
ghost use Rattle.qc_worker.specs.Calls.{ForcesThenPuts, WritesThenPuts, PutsThenWrites, Carries};

use crm_clerk::Clerk;
use crm_driver::put_amount;
use crm_log::CrmLog;
use qc_base::{Amount, LogRecord, Name, Text};
use qc_catalogue::Resource;
use qc_play::Effect;
use qc_site::{Failed, Site};

/// Carries out an effect of an attempt's call on this resource, by the attempt's clerk (docs/RULES.md, "Work").
///
/// The first effect of a resource registers its compensator. A change is written as a record; where the resource is
/// early, the log is then forced and the row gets the new amount, in this order. A retract writes that the last record
/// is forgotten; where the resource is early, the row has the old amount back before. A row that isn't there, which no
/// honest site of a catalogue lacks, is passed over.
///
/// Where the site tells its content, a crash at any moment of a change leaves the row as it was, or put where what
/// waited and the change's lines are a group of the image's own log; a crash in a retract leaves the log as it was, and
/// the row as it was or back. A late change makes no call of the site. `Failed` comes only where the site's count of
/// faults rose: at the force, or at a put. After it the log is opened again, and the clerk is of no more use; a retract
/// that failed has written nothing.
///
/// The effect is of this resource, whose phases are 1 to 7, and what a retract takes back is the resource's last
/// record, which wasn't forgotten. There is room in clerk and log for all lines that it writes. The log stands on the
/// site, at its end.
pub fn carry_out<S: Site>(
    clerk: &mut Clerk,
    log: &mut CrmLog,
    site: &mut S,
    resource: &Resource,
    effect: &Effect,
) -> Result<(), Failed>
    requires named { resource_of effect.now ≡ resource.now.name }
    requires phases { are_phases resource.now.phases ≡ true }
    requires last { can_carry clerk.old resource.now effect.now ≡ true }
    requires stands { LogStands S.Site log.old.log site.old }
    requires clerk_room { effect_room clerk.old resource.now effect.now ≤ clerk.old.room }
    requires log_room { HasRoomFor (length (effect_lines clerk.old resource.now effect.now)) log.old }
    ensures carries { Carries S.Site resource.now effect.now result
        clerk.old log.old site.old clerk.new log.new site.new }
{
    match effect {
        Effect::Change {
            resource: _,
            key,
            old,
            new,
        } => change(clerk, log, site, resource, key, *old, *new),
        Effect::Retract { resource: _ } => retract(clerk, log, site, resource),
    }
}

fn change<S: Site>(
    clerk: &mut Clerk,
    log: &mut CrmLog,
    site: &mut S,
    resource: &Resource,
    key: &Text,
    old: Amount,
    new: Amount,
) -> Result<(), Failed>
    requires phases { are_phases resource.now.phases ≡ true }
    requires stands { LogStands S.Site log.old.log site.old }
    requires clerk_room { first_room clerk.old resource.now + 1 ≤ clerk.old.room }
    requires log_room { HasRoomFor (length (change_lines clerk.old resource.now key.now old new)) log.old }
    ensures { MatchBool resource.now.early
        (WritesThenPuts S.Site (change_lines clerk.old resource.now key.now old new)
        (first_room clerk.old resource.now + 1) (put_of resource.now.name key.now new)
        result clerk.old log.old site.old clerk.new log.new site.new)
        (PutsThenWrites S.Site [] (change_lines clerk.old resource.now key.now old new)
        (first_room clerk.old resource.now + 1)
        result clerk.old log.old site.old clerk.new log.new site.new) }
{
    write_change(clerk, log, resource, key, old, new);
    if !resource.early {
        return Ok(());
    }
    force_then_put(clerk, log, site, &resource.name, key, new)
}

// The lines of a change.
fn write_change(
    clerk: &mut Clerk,
    log: &mut CrmLog,
    resource: &Resource,
    key: &Text,
    old: Amount,
    new: Amount,
)
    requires phases { are_phases resource.now.phases ≡ true }
    requires clerk_room { first_room clerk.old resource.now + 1 ≤ clerk.old.room }
    requires log_room { HasRoomFor (length (change_lines clerk.old resource.now key.now old new)) log.old }
    ensures written { HasStaged (change_lines clerk.old resource.now key.now old new)
        (first_room clerk.old resource.now + 1) clerk.old log.old clerk.new log.new }
    ensures waits { 0 < length log.new.log.payload }
{
    register_first(clerk, log, resource);
    let _ = clerk.write_record(log, &resource.name, key, old, new);
}

// Registers the compensator of a resource that isn't registered yet.
fn register_first(clerk: &mut Clerk, log: &mut CrmLog, resource: &Resource)
    requires phases { are_phases resource.now.phases ≡ true }
    requires clerk_room { first_room clerk.old resource.now ≤ clerk.old.room }
    requires log_room { HasRoomFor (length (first_lines clerk.old resource.now)) log.old }
    ensures written { HasStaged (first_lines clerk.old resource.now) (first_room clerk.old resource.now)
        clerk.old log.old clerk.new log.new }
    ensures there { is_registered clerk.new.lines clerk.new.attempt resource.now.name ≡ true }
{
    if has_registered(clerk, &resource.name) {
        return;
    }
    let _ = clerk.register(log, &resource.name, resource.phases);
}

fn has_registered(clerk: &Clerk, resource: &Name) -> bool
    ensures { result ≡ is_registered clerk.now.lines clerk.now.attempt resource.now }
{
    is_among(clerk.registered(), resource)
}

fn is_among(registered: &[(Name, u8)], resource: &Name) -> bool
    ensures { result ≡ list_any (λ (r : List ℕ × ℕ). bytes_eq r.0 resource.now) registered.now }
{
    registered
        .iter()
        .any(|own| own.0.as_bytes() == resource.as_bytes())
}

// Forces all that waits, of which there is some, and only then puts the row.
fn force_then_put<S: Site>(
    clerk: &mut Clerk,
    log: &mut CrmLog,
    site: &mut S,
    resource: &Name,
    key: &Text,
    amount: Amount,
) -> Result<(), Failed>
    requires stands { LogStands S.Site log.old.log site.old }
    requires waits { 0 < length log.old.log.payload }
    ensures clerk { clerk.new ≡ clerk.old }
    ensures puts { ForcesThenPuts S.Site (put_of resource.now key.now amount) result
        log.old site.old log.new site.new }
{
    match clerk.force_log(log, site) {
        Ok(()) => put_amount(site, resource, key, amount),
        Err(failed) => Err(failed),
    }
}

fn retract<S: Site>(
    clerk: &mut Clerk,
    log: &mut CrmLog,
    site: &mut S,
    resource: &Resource,
) -> Result<(), Failed>
    requires last { is_some (last_kept clerk.old.lines clerk.old.attempt resource.now.name) ≡ true }
    requires stands { LogStands S.Site log.old.log site.old }
    requires log_room { HasRoomFor (length (forgetting_lines clerk.old resource.now.name)) log.old }
    ensures { PutsThenWrites S.Site (retract_puts clerk.old resource.now)
        (forgetting_lines clerk.old resource.now.name) 0
        result clerk.old log.old site.old clerk.new log.new site.new }
{
    let Some(last) = clerk.last(&resource.name) else {
        return Ok(());
    };
    let last = *last;
    put_back(site, resource, &last)?;
    clerk.forget(log, &resource.name, last.seq);
    Ok(())
}

// The row of a record of an early resource has its old amount again.
fn put_back<S: Site>(site: &mut S, resource: &Resource, last: &LogRecord) -> Result<(), Failed>
    ensures { MakesPuts S.Site (put_back resource.now last.now) result site.old site.new }
{
    if !resource.early {
        return Ok(());
    }
    put_amount(site, &resource.name, &last.key, last.old)
}

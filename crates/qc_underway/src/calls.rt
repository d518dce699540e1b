// The next call of an attempt, with its effects. No call takes memory.
ghost use Rattle.std.specs.Prelude.{◌≡◌, length, true};
ghost use Rattle.qc_base.specs.declared.log_line.Stage.TheVariants.{Calls as calls_stage};
ghost use Rattle.qc_frame.specs.Calls.{LogStands};
ghost use Rattle.qc_txn.specs.Attempt.{PlaysBy};
ghost use Rattle.qc_worker.specs.Effects.{can_carry, resource_of};
ghost use Rattle.qc_underway.specs.Calls.{CarriesAll, CarriesOne, RunsOn};
ghost use Rattle.qc_underway.specs.Standing.{HasRoom, HasRoomForAll, HasRoomLeft, has_phases, lines_by, room_by};

use crm_clerk::Clerk;
use crm_log::CrmLog;
use qc_base::Name;
use qc_catalogue::{Catalogue, Resource};
use qc_play::Effect;
use qc_site::{Failed, Site};
use qc_txn::Attempt;
use qc_worker::carry_out;

/// Runs the next call of an attempt by the catalogue that it plays by, and carries its effects out, in order
/// (docs/RULES.md, "Work"). Tells the call's number, or, where a step fails, that step; a call that fails has no
/// effects. This takes no memory.
///
/// `Failed` comes only where the site's count of faults rose. The call has run then, and its effects before the one that
/// failed are carried out; the log is opened again, and clerk and attempt are of no more use.
///
/// There is room in clerk and log for all that the calls that are left write, and so there is behind the call. The log
/// stands on the site, at its end.
pub fn run_next<S: Site>(
    attempt: &mut Attempt,
    clerk: &mut Clerk,
    log: &mut CrmLog,
    site: &mut S,
    catalogue: &Catalogue,
) -> Result<Result<u8, u8>, Failed>
    requires stage { attempt.old.stage ≡ calls_stage }
    requires plays { PlaysBy catalogue.now attempt.old }
    requires phases { has_phases catalogue.now ≡ true }
    requires stands { LogStands S.Site log.old.log site.old }
    requires room { HasRoomLeft catalogue.now attempt.old clerk.old log.old }
    ensures runs { RunsOn S.Site catalogue.now result attempt.old clerk.old log.old site.old
        attempt.new clerk.new log.new site.new }
    ensures plays { PlaysBy catalogue.now attempt.new }
{
    let number = match attempt.run_next(catalogue) {
        Ok(number) => number,
        Err(step) => return Ok(Err(step)),
    };
    match carry_all(catalogue, clerk, log, site, attempt.state().effects()) {
        Ok(()) => Ok(Ok(number)),
        Err(failed) => Err(failed),
    }
}

/// Carries out the effects of a call, in order, each by its resource of the catalogue. One whose resource isn't there is
/// passed over, and so is a retract where nothing is to be taken back: no call of a script has such an effect.
///
/// `Failed` comes only where the site's count of faults rose. The effects before the one that failed are carried out
/// then.
pub fn carry_all<S: Site>(
    catalogue: &Catalogue,
    clerk: &mut Clerk,
    log: &mut CrmLog,
    site: &mut S,
    effects: &[Effect],
) -> Result<(), Failed>
    requires phases { has_phases catalogue.now ≡ true }
    requires stands { LogStands S.Site log.old.log site.old }
    requires room { HasRoomForAll catalogue.now effects.now clerk.old log.old }
    ensures { CarriesAll S.Site catalogue.now effects.now result
        clerk.old log.old site.old clerk.new log.new site.new }
{
    for effect in effects {
        match carry_one(catalogue, clerk, log, site, effect) {
            Ok(()) => {}
            Err(failed) => return Err(failed),
        }
    }
    Ok(())
}

fn carry_one<S: Site>(
    catalogue: &Catalogue,
    clerk: &mut Clerk,
    log: &mut CrmLog,
    site: &mut S,
    effect: &Effect,
) -> Result<(), Failed>
    requires phases { has_phases catalogue.now ≡ true }
    requires stands { LogStands S.Site log.old.log site.old }
    requires room { HasRoom (room_by catalogue.now clerk.old effect.now)
        (length (lines_by catalogue.now clerk.old effect.now)) clerk.old log.old }
    ensures { CarriesOne S.Site catalogue.now effect.now result
        clerk.old log.old site.old clerk.new log.new site.new }
{
    let Some(resource) = catalogue.resource(name_of(effect).as_bytes()) else {
        return Ok(());
    };
    if !is_possible(clerk, resource, effect) {
        return Ok(());
    }
    carry_out(clerk, log, site, resource, effect)
}

fn name_of(effect: &Effect) -> &Name
    ensures { result.now ≡ resource_of effect.now }
{
    match effect {
        Effect::Change {
            resource,
            key: _,
            old: _,
            new: _,
        } => resource,
        Effect::Retract { resource } => resource,
    }
}

// A retract takes back what is there.
fn is_possible(clerk: &Clerk, resource: &Resource, effect: &Effect) -> bool
    ensures { result ≡ can_carry clerk.now resource.now effect.now }
{
    match effect {
        Effect::Change {
            resource: _,
            key: _,
            old: _,
            new: _,
        } => true,
        Effect::Retract { resource: _ } => clerk.last(&resource.name).is_some(),
    }
}

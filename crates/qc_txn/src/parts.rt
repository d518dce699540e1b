// The calls that an attempt plays, as the catalogue has them.
ghost use Rattle.std.specs.Prelude.{◌≡◌, ◌+◌, ◌≤◌, ◌<◌, ◌∷◌, option_map, slice_get, length, true};
ghost use Rattle.std.specs.List.{list_all};
ghost use Rattle.qc_txn.specs.Parts.{exception_by, has_method, is_playable, part_of_class, parts_from, parts_of};
ghost use Rattle.qc_txn.specs.Attempt.{count_of, effects_in};
ghost use Rattle.qc_txn.specs.Played.{part_of};

use qc_base::{Arg, Call, Kind, Recording};
use qc_catalogue::{App, Catalogue, Component, Exception, Method};
use qc_script::Script;

/// A call to play: its number, its script and its arguments.
#[derive(Clone, Copy)]
pub struct CallToPlay<'a> {
    pub number: u8,
    pub script: &'a Script,
    pub args: &'a [Arg],
}

/// How many calls an attempt of this kind on the recording plays.
pub fn count_of(recording: &Recording, kind: Kind) -> u8
    requires { length recording.now.calls ≤ 64 }
    ensures value { result ≡ count_of recording.now kind }
    ensures bound { result ≤ 65 }
{
    let calls = recording.calls.as_slice().len() as u8;
    match kind {
        Kind::Normal => calls,
        Kind::Final => calls + 1,
    }
}

fn exception_by<'a>(app: &'a App, component: &Component) -> Option<&'a Exception>
    ensures { option_map (λ x. x.now) result ≡ exception_by app.now component.now }
{
    let Some(name) = component.exception else {
        return None;
    };
    app.exception(name.as_bytes())
}

fn of_method<'a>(method: &'a Method, call: &'a Call, place: u8) -> CallToPlay<'a>
    requires { place < 255 }
    ensures { part_of result ≡ record { number = place + 1; script = method.now.script; args = call.now.args } }
{
    CallToPlay {
        number: place + 1,
        script: &method.script,
        args: call.args.as_slice(),
    }
}

// The recorded call at a place, from 0, by the component's scripts.
fn call_of<'a>(component: &'a Component, calls: &'a [Call], place: u8) -> Option<CallToPlay<'a>>
    requires few { length calls.now ≤ 64 }
    requires known { list_all (has_method component.now.methods) calls.now ≡ true }
    ensures { option_map part_of result ≡ slice_get (parts_from 1 component.now.methods calls.now) place }
{
    let Some(call) = calls.get(place as usize) else {
        return None;
    };
    let Some(method) = component.method(call.method.as_bytes()) else {
        return None;
    };
    Some(of_method(method, call, place))
}

// The same by the exception class's scripts.
fn class_call_of<'a>(class: &'a Exception, calls: &'a [Call], place: u8) -> Option<CallToPlay<'a>>
    requires few { length calls.now ≤ 64 }
    requires known { list_all (has_method class.now.methods) calls.now ≡ true }
    ensures { option_map part_of result ≡ slice_get (parts_from 1 class.now.methods calls.now) place }
{
    let Some(call) = calls.get(place as usize) else {
        return None;
    };
    let Some(method) = class.method(call.method.as_bytes()) else {
        return None;
    };
    Some(of_method(method, call, place))
}

// A call of a final attempt: the exception class's own script, and then the recorded calls.
fn final_call<'a>(class: &'a Exception, calls: &'a [Call], place: u8) -> Option<CallToPlay<'a>>
    requires few { length calls.now ≤ 64 }
    requires known { list_all (has_method class.now.methods) calls.now ≡ true }
    ensures { option_map part_of result ≡ slice_get (part_of_class class.now ∷ parts_from 1 class.now.methods calls.now) place }
{
    if place == 0 {
        return Some(CallToPlay {
            number: 0,
            script: &class.last,
            args: &[],
        });
    }
    class_call_of(class, calls, place - 1)
}

/// The call at a place, from 0, of an attempt of this kind on the recording.
pub fn part_at<'a>(
    catalogue: &'a Catalogue,
    recording: &'a Recording,
    kind: Kind,
    place: u8,
) -> Option<CallToPlay<'a>>
    requires few { length recording.now.calls ≤ 64 }
    requires playable { is_playable catalogue.now recording.now kind ≡ true }
    ensures { option_map part_of result ≡ slice_get (parts_of catalogue.now recording.now kind) place }
{
    let Some(app) = catalogue.app(recording.app.as_bytes()) else {
        return None;
    };
    let Some(component) = app.component(recording.component.as_bytes()) else {
        return None;
    };
    let calls = recording.calls.as_slice();
    match kind {
        Kind::Normal => call_of(component, calls, place),
        Kind::Final => {
            let Some(class) = exception_by(app, component) else {
                return None;
            };
            final_call(class, calls, place)
        }
    }
}

// Whether each recorded call has its method in the component.
fn has_methods(component: &Component, calls: &[Call]) -> bool
    ensures { result ≡ list_all (has_method component.now.methods) calls.now }
{
    for call in calls {
        if component.method(call.method.as_bytes()).is_none() {
            return false;
        }
    }
    true
}

// The same of the exception class.
fn class_has_methods(class: &Exception, calls: &[Call]) -> bool
    ensures { result ≡ list_all (has_method class.now.methods) calls.now }
{
    for call in calls {
        if class.method(call.method.as_bytes()).is_none() {
            return false;
        }
    }
    true
}

/// Whether an attempt of this kind on the recording can be played: its component is there, for a final attempt with its
/// exception class, and each of its calls has its method.
pub fn is_playable(catalogue: &Catalogue, recording: &Recording, kind: Kind) -> bool
    ensures { result ≡ is_playable catalogue.now recording.now kind }
{
    let Some(app) = catalogue.app(recording.app.as_bytes()) else {
        return false;
    };
    let Some(component) = app.component(recording.component.as_bytes()) else {
        return false;
    };
    let calls = recording.calls.as_slice();
    match kind {
        Kind::Normal => has_methods(component, calls),
        Kind::Final => {
            let Some(class) = exception_by(app, component) else {
                return false;
            };
            class_has_methods(class, calls)
        }
    }
}

/// How many effects the calls of such an attempt may have, all together.
pub fn effects_of(catalogue: &Catalogue, recording: &Recording, kind: Kind) -> u16
    requires few { length recording.now.calls ≤ 64 }
    requires playable { is_playable catalogue.now recording.now kind ≡ true }
    ensures { result ≡ effects_in (parts_of catalogue.now recording.now kind) }
{
    let mut sum: u16 = 0;
    for place in 0..count_of(recording, kind) {
        let Some(part) = part_at(catalogue, recording, kind, place) else {
            return sum;
        };
        sum += u16::from(part.script.effects());
    }
    sum
}

// What of a recording is in a catalogue.
ghost use Rattle.std.specs.Prelude.{◌≡◌, option_map};
ghost use Rattle.std.specs.List.{list_all};
ghost use Rattle.qc_catalogue.specs.Lookup.{method_of};
ghost use Rattle.qc_recorder.specs.Fits.{kind_fits, args_fit, call_fits, recording_fits};
ghost use Rattle.qc_recorder.specs.Recording.{methods_for};

use qc_base::{Arg, Call, Recording};
use qc_catalogue::{Catalogue, Component, Method, Param, ParamKind};

/// The method that a recording's component has under this name, or None where it has none, or isn't there.
pub fn method_for<'a>(
    catalogue: &'a Catalogue,
    recording: &Recording,
    name: &[u8],
) -> Option<&'a Method>
    ensures { option_map (λ m. m.now) result ≡ method_of name.now (methods_for catalogue.now recording.now) }
{
    let app = catalogue.app(recording.app.as_bytes())?;
    let component = app.component(recording.component.as_bytes())?;
    component.method(name)
}

fn kind_fits(kind: ParamKind, arg: &Arg) -> bool
    ensures { result ≡ kind_fits kind arg.now }
{
    match (kind, arg) {
        (ParamKind::Text, Arg::Text(_)) => true,
        (ParamKind::Whole, Arg::Whole(_)) => true,
        (ParamKind::Text, Arg::Whole(_)) => false,
        (ParamKind::Whole, Arg::Text(_)) => false,
    }
}

fn args_fit(params: &[Param], args: &[Arg]) -> bool
    ensures { result ≡ args_fit params.now args.now }
{
    if params.len() != args.len() {
        return false;
    }
    for index in 0..params.len() {
        if !kind_fits(params[index].kind, &args[index]) {
            return false;
        }
    }
    true
}

fn call_fits(component: &Component, call: &Call) -> bool
    ensures { result ≡ call_fits component.now.methods call.now }
{
    match component.method(call.method.as_bytes()) {
        Some(method) => args_fit(method.params.as_slice(), call.args.as_slice()),
        None => false,
    }
}

fn calls_fit(component: &Component, calls: &[Call]) -> bool
    ensures { result ≡ list_all (call_fits component.now.methods) calls.now }
{
    calls.iter().all(|call| call_fits(component, call))
}

/// Whether a recording fits a catalogue: its application, component and methods are there, and the arguments of each
/// call are as many as the method's parameters and of their kinds (docs/RULES.md, "Recording").
pub fn fits(catalogue: &Catalogue, recording: &Recording) -> bool
    ensures { result ≡ recording_fits catalogue.now recording.now }
{
    let Some(app) = catalogue.app(recording.app.as_bytes()) else {
        return false;
    };
    let Some(component) = app.component(recording.component.as_bytes()) else {
        return false;
    };
    calls_fit(component, recording.calls.as_slice())
}

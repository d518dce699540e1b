// What the catalogue says of a recording.
ghost use Rattle.std.specs.Prelude.{◌≡◌};
ghost use Rattle.qc_machine.specs.History.{names_exception as does_name};

use qc_base::Recording;
use qc_catalogue::Catalogue;

/// Whether the component of a recording names an exception class.
pub(crate) fn names_exception(catalogue: &Catalogue, recording: &Recording) -> bool
    ensures { result ≡ does_name catalogue.now recording.now }
{
    let Some(app) = catalogue.app(recording.app.as_bytes()) else {
        return false;
    };
    let Some(component) = app.component(recording.component.as_bytes()) else {
        return false;
    };
    component.exception.is_some()
}

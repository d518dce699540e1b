// The catalogue and what is looked up in it.
ghost use Rattle.std.specs.Prelude.{◌≡◌, option_map};
ghost use Rattle.qc_catalogue.specs.Lookup.{app_named, component_named, method_of, exception_named, resource_named, table_named};

use crate::lists::AmountRows;
use crate::lookup::find_named;
use qc_base::{Amount, Name};
use qc_script::{Entries, Params, Script};

/// A table with the rows that it opens with.
#[derive(Debug, Drop)]
pub struct Opening {
    pub name: Name,
    pub rows: AmountRows,
}

/// A resource of outside rows: whether changes are made early, in which phases it takes part (the sum of 1 for the
/// prepare phase, 2 for the commit phase and 4 for the abort phase), the low and the high bound of its amounts, and
/// its rows.
#[derive(Debug, Drop)]
pub struct Resource {
    pub name: Name,
    pub early: bool,
    pub phases: u8,
    pub bounds: Option<(Amount, Amount)>,
    pub rows: AmountRows,
}

/// A method, of a component or an exception class: its parameters, all of which are inputs, and its script.
#[derive(Debug, Drop)]
pub struct Method {
    pub name: Name,
    pub params: Params,
    pub script: Script,
}

/// An exception class: `last` is the script of `FinalServerRetry`.
#[derive(Debug, Drop)]
pub struct Exception {
    pub name: Name,
    pub last: Script,
    pub methods: Entries<Method>,
}

/// A component, with the exception class that it names.
#[derive(Debug, Drop)]
pub struct Component {
    pub name: Name,
    pub exception: Option<Name>,
    pub methods: Entries<Method>,
}

/// An application, with its exception classes and components.
#[derive(Debug, Drop)]
pub struct App {
    pub name: Name,
    pub exceptions: Entries<Exception>,
    pub components: Entries<Component>,
}

/// What a catalogue's text says (docs/FORMATS.md, "Catalogue"). `Catalogue::read` makes it. What holds of each one
/// that was read is said by `each_catalogue_is_orderly`, `lists_stand_in_order` and `methods_take_few_arguments`.
#[derive(Debug, Drop)]
pub struct Catalogue {
    pub tables: Entries<Opening>,
    pub resources: Entries<Resource>,
    pub apps: Entries<App>,
}

impl Catalogue {
    /// The application with a name, or None where there is none.
    pub fn app(&self, name: &[u8]) -> Option<&App>
        ensures { option_map (λ a. a.now) result ≡ app_named name.now self.now.apps }
    {
        find_named(self.apps.as_slice(), name)
    }

    /// The resource with a name, or None where there is none.
    pub fn resource(&self, name: &[u8]) -> Option<&Resource>
        ensures { option_map (λ r. r.now) result ≡ resource_named name.now self.now.resources }
    {
        find_named(self.resources.as_slice(), name)
    }

    /// The table with a name, or None where there is none.
    pub fn table(&self, name: &[u8]) -> Option<&Opening>
        ensures { option_map (λ t. t.now) result ≡ table_named name.now self.now.tables }
    {
        find_named(self.tables.as_slice(), name)
    }

    /// All applications, in byte order of names.
    pub fn apps(&self) -> &[App]
        ensures { result.now ≡ self.now.apps }
    {
        self.apps.as_slice()
    }

    /// All resources, in byte order of names.
    pub fn resources(&self) -> &[Resource]
        ensures { result.now ≡ self.now.resources }
    {
        self.resources.as_slice()
    }

    /// All tables, in byte order of names.
    pub fn tables(&self) -> &[Opening]
        ensures { result.now ≡ self.now.tables }
    {
        self.tables.as_slice()
    }
}

impl App {
    /// The component with a name, or None where there is none.
    pub fn component(&self, name: &[u8]) -> Option<&Component>
        ensures { option_map (λ k. k.now) result ≡ component_named name.now self.now.components }
    {
        find_named(self.components.as_slice(), name)
    }

    /// The exception class with a name, or None where there is none.
    pub fn exception(&self, name: &[u8]) -> Option<&Exception>
        ensures { option_map (λ x. x.now) result ≡ exception_named name.now self.now.exceptions }
    {
        find_named(self.exceptions.as_slice(), name)
    }
}

impl Component {
    /// The method with a name, or None where there is none.
    pub fn method(&self, name: &[u8]) -> Option<&Method>
        ensures { option_map (λ m. m.now) result ≡ method_of name.now self.now.methods }
    {
        find_named(self.methods.as_slice(), name)
    }
}

impl Exception {
    /// The method with a name, or None where there is none.
    pub fn method(&self, name: &[u8]) -> Option<&Method>
        ensures { option_map (λ m. m.now) result ≡ method_of name.now self.now.methods }
    {
        find_named(self.methods.as_slice(), name)
    }
}

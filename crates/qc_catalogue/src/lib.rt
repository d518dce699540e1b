//! The catalogue of applications, read from TOML.
//!
//! `Catalogue::read` gives the catalogue of a text, or the first of its rules that the text breaks
//! (docs/FORMATS.md, "Catalogue"), which `print_error` prints. What is in a catalogue is looked up by names
//! (`Catalogue::app`, `App::component`, `Component::method` and their kin); lists are in byte order of names.
//!
//! `catalogue_of` of `specs/Catalogue.antt` says which catalogue a text has: `found_in` lists what a walk through
//! its tables finds, rule by rule, and the first that is broken is the refusal; `catalogue_in` is what the tables
//! say where none is. Scripts are read by `qc_script`, with the tables and resources of this text.
#![tactic(auto)]

mod applications;
mod catalogue;
mod components;
mod error;
mod exceptions;
mod field;
mod ids;
mod kinds;
mod laws;
mod lists;
mod lookup;
mod methods;
mod params;
mod paths;
mod read;
mod resources;
mod rows;
mod sample_text;
mod tables;
#[cfg(test)]
mod tests;
mod text;
mod values;
mod worked;

pub use catalogue::{App, Catalogue, Component, Exception, Method, Opening, Resource};
pub use error::CatalogueError;
pub use laws::{each_catalogue_is_orderly, lists_stand_in_order, methods_take_few_arguments};
pub use lists::AmountRows;
pub use qc_script::{Entries, Param, ParamKind, Params, Script};
pub use sample_text::sample;
pub use text::print_error;
pub use worked::{
    a_bad_script_is_told_by_its_line, a_class_takes_its_calls, a_long_script_is_bad,
    a_long_text_is_refused, a_resource_has_its_phases, a_text_of_applications_has_one,
    an_output_is_not_queueable, bounds_come_in_pairs, ids_differ, keys_are_names,
    the_sample_is_a_catalogue,
};

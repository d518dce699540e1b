// What holds of every catalogue. Nothing runs here: the contracts are the laws.
ghost use Rattle.std.specs.Prelude.{◌≡◌, ℕ, List, true};
ghost use Rattle.qc_catalogue.specs.declared.catalogue.Catalogue.{Catalogue};
ghost use Rattle.qc_catalogue.specs.Catalogue.{IsCatalogueOf};
ghost use Rattle.qc_catalogue.specs.Laws.{StandInOrder, TakesFew};
ghost use Rattle.qc_catalogue.specs.Orderly.{is_orderly};

/// Each method of a catalogue has at most 16 parameters.
pub fn methods_take_few_arguments()
    ensures { (text : List ℕ) (c : Catalogue) → IsCatalogueOf text c → TakesFew c }
{}

/// Names and keys come once, in each catalogue that is read; a component's methods have at most 16 parameters, and
/// the exception class that it names is there.
pub fn each_catalogue_is_orderly()
    ensures { (text : List ℕ) (c : Catalogue) → IsCatalogueOf text c → is_orderly c ≡ true }
{}

/// The applications, tables and resources of a catalogue stand in byte order of their names, and a table's rows in that
/// of their keys, in whatever order its text has them.
pub fn lists_stand_in_order()
    ensures { (text : List ℕ) (c : Catalogue) → IsCatalogueOf text c → StandInOrder c }
{}

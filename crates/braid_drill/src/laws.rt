//! Laws of the definitions, each the contract of a function that does nothing.

ghost use Rattle.braid_drill.specs.Laws.{OneFormLaw, CompletesLaw, RefusesLaw, CausesLaw};

/// Words ask for one seed and one number of rounds at most.
pub fn one_form()
    ensures law { OneFormLaw }
{}

/// Words of the form are carried out: where no write failed, the five lines with their number of rounds were written
/// under status Done, or there was no memory.
pub fn completes()
    ensures law { CompletesLaw }
{}

/// Other words are answered as such, where no write failed.
pub fn refuses()
    ensures law { RefusesLaw }
{}

/// The status is Usage only for words of no form, Outside only where a write failed, and never Bad or Cut.
pub fn causes()
    ensures law { CausesLaw }
{}

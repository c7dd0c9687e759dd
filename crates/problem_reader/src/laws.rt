//! Laws of the definitions in `specs/`, each the contract of a function that does nothing.
ghost use Rattle.problem_reader.specs.Laws.{NamesAreTheDomains};

/// Of a domain that `read_domain` gave, a problem's names are those in the domain's text, each with
/// the number that it has there, and the problem's objects behind them.
pub fn names_are_the_domains()
    ensures { NamesAreTheDomains }
{}

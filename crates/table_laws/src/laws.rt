//! Laws of tables, each the contract of a function that does nothing.
ghost use Rattle.table_laws.specs.Laws.{DomainNamesAreDeclared, EffectsAreLiterals, ObjectNamesAreDeclared, StreamNamesAreDeclared, TypesAreClosed};

/// A domain's types, predicates, functions, constants and actions have exactly the names that its
/// items declare.
pub fn domain_names_are_declared()
    ensures { DomainNamesAreDeclared }
{}

/// The objects of a problem have exactly the names of the domain's constants and those that its
/// items declare.
pub fn object_names_are_declared()
    ensures { ObjectNamesAreDeclared }
{}

/// Streams have exactly the names that their items declare.
pub fn stream_names_are_declared()
    ensures { StreamNamesAreDeclared }
{}

/// An action adds and deletes exactly the literals of its effect.
pub fn effects_are_literals()
    ensures { EffectsAreLiterals }
{}

/// Above each type are exactly those that it is under, by what `:types` lists.
pub fn types_are_closed()
    ensures { TypesAreClosed }
{}

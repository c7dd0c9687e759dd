//! Laws of the definitions in `specs/`, each the contract of a function that does nothing.
ghost use Rattle.form_reader.specs.Faults.{LeastIsAnswered};

/// The fault that is answered is one of the faults and comes before each of them, and none is
/// answered only where there is no fault.
pub fn least_is_answered()
    ensures { LeastIsAnswered }
{}

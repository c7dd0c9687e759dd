//! Laws of the definitions in `specs/`, each the contract of a function that does nothing.
ghost use Rattle.gen_lines.specs.Laws.{LinesIgnoreCutting, NumbersAreSmall, RequestsReadBack, WordsAreFields, YieldsAreRight};

/// However bytes are cut into pushes, and whenever lines are taken, the lines taken and those still
/// held are the lines of all the bytes.
pub fn lines_ignore_cutting()
    ensures { LinesIgnoreCutting }
{}

/// Words with a space between each two are the fields of that line.
pub fn words_are_fields()
    ensures { WordsAreFields }
{}

/// A yield has at least one tuple and at most [`YIELD_TUPLES`](crate::YIELD_TUPLES), each of as
/// many values as are wanted; more than one only where several are.
pub fn yields_are_right()
    ensures { YieldsAreRight }
{}

/// A number that is answered is at most 1,000,000.
pub fn numbers_are_small()
    ensures { NumbersAreSmall }
{}

/// A request is one line, whatever follows it, and its fields are its words, where names are
/// printed bytes.
pub fn requests_read_back()
    ensures { RequestsReadBack }
{}

//! How a run ends.
ghost use Rattle.std.specs.Prelude.{◌≡◌};
ghost use Rattle.command_files.specs.Codes.{code_of};

/// How a run ends, as the program's exit status tells it.
#[derive(Clone, Copy, Debug, PartialEq, Eq)]
pub enum Status {
    /// A plan was printed.
    Plan,
    /// What was to be done is done.
    Done,
    /// Every instance that can be asked has finished, and no plan was found.
    NoPlan,
    /// A limit was reached.
    Limit,
    /// The words are no command.
    Usage,
    /// A text was refused.
    Input,
    /// A generator's line is no answer.
    BadAnswer,
    /// A file could not be read.
    ReadFault,
    /// A generator failed.
    GeneratorFault,
    /// The report could not be written.
    WriteFault,
    /// Memory is wanting.
    Memory,
    /// A report is wrong.
    Invalid,
}

impl Status {
    /// The program's exit status: 0 for `Plan` and `Done`, then 1 to 10 in the order of the other
    /// variants.
    pub fn code(&self) -> u8
        ensures { result ≡ code_of self.now }
    {
        match self {
            Status::Plan | Status::Done => 0,
            Status::NoPlan => 1,
            Status::Limit => 2,
            Status::Usage => 3,
            Status::Input => 4,
            Status::BadAnswer => 5,
            Status::ReadFault => 6,
            Status::GeneratorFault => 7,
            Status::WriteFault => 8,
            Status::Memory => 9,
            Status::Invalid => 10,
        }
    }
}

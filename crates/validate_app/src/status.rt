//! How a run ends.
ghost use Rattle.std.specs.Prelude.{◌≡◌};
ghost use Rattle.validate_app.specs.Codes.{validation_code};

/// How a run ends, as the program's exit status tells it.
#[derive(Clone, Copy, Debug, PartialEq, Eq)]
pub enum Status {
    /// The plan is valid.
    Valid,
    /// It isn't.
    Invalid,
    /// The words are none of the program's.
    Usage,
    /// A text was refused, or a report that certifies nothing.
    Input,
    /// A file could not be read.
    ReadFault,
    /// The verdict could not be written.
    WriteFault,
    /// Memory is wanting.
    Memory,
}

impl Status {
    /// The program's exit status: 0 and 1 for what is said of a plan, and for each other end the
    /// planner's.
    pub fn code(&self) -> u8
        ensures { result ≡ validation_code self.now }
    {
        match self {
            Status::Valid => 0,
            Status::Invalid => 1,
            Status::Usage => 3,
            Status::Input => 4,
            Status::ReadFault => 6,
            Status::WriteFault => 8,
            Status::Memory => 9,
        }
    }
}

//! How the program ends.
ghost use Rattle.std.specs.Prelude.{◌≡◌};
ghost use Rattle.grid_world.specs.Serving.{status_code};

/// How the program ended. The codes are this project's.
#[derive(Clone, Copy, Debug, PartialEq, Eq)]
pub enum GridStatus {
    /// The input was read to its end, and all of its lines were answered.
    Done,
    /// 100,000 lines were answered.
    Limit,
    /// The words aren't one word.
    Usage,
    /// The grid file has a fault, or 4,097 bytes came with no line feed among them.
    Input,
    /// The grid file or the input could not be read, or the file is longer than 4 MiB.
    ReadFault,
    /// An answer could not be written.
    WriteFault,
    /// Memory ran out.
    Memory,
}

impl GridStatus {
    /// The exit status of the program.
    pub fn code(&self) -> u8
        ensures { result ≡ status_code self.now }
    {
        match self {
            GridStatus::Done => 0,
            GridStatus::Limit => 2,
            GridStatus::Usage => 3,
            GridStatus::Input => 4,
            GridStatus::ReadFault => 6,
            GridStatus::WriteFault => 8,
            GridStatus::Memory => 9,
        }
    }
}

//! Why a report certifies nothing.

/// Why a report certifies nothing.
#[derive(Clone, Copy, Debug, PartialEq, Eq)]
pub enum ReportFlaw {
    /// Its text is no report's.
    Text,
    /// A request may not be made.
    Ask,
    /// An answer may not be given.
    Answer,
}

//! Why a text is no report.

/// Why a text is no report.
#[derive(Clone, Copy, PartialEq, Eq, Debug)]
pub enum ReportFault {
    /// A line that isn't of a form at its place.
    At {
        /// The first such line, from 1.
        line: u32,
        /// The kind of the fault: 1, that the text isn't of the form.
        kind: u8,
    },
    /// Memory was wanting.
    Memory,
}

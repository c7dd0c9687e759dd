//! Transcripts and reports under one name: the types, the texts that are written, and their reader.
#![tactic(auto)]

pub use report_reader::read_report;
pub use report_text::{ReportFault, entry_text, head_text, migrated, outcome_text};
pub use transcript_model::{
    Call, DreamUse, Entry, Head, LimitKind, Mode, Origin, Outcome, Pool, PoolLine, Report,
};

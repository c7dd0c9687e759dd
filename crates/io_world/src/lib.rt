//! The outside of the planner: files, children, a sink and a source, each behind a trait; forms in
//! memory for tests and proofs, and adapters for the real ones.
#![tactic(auto)]

mod answer_by;
mod ask_log;
mod call_log;
mod conversation;
mod fault_count;
mod files;
mod held_line;
mod host;
mod lookup;
mod mem_files;
mod mem_sink;
mod mem_source;
mod pieces;
mod progress;
mod real_files;
mod real_sink;
mod real_source;
mod reply_buffer;
mod retry;
mod schedule;
mod script_host;
mod scripts;
mod sink;
mod source;
mod sure_files;
mod sure_host;
mod sure_sink;
mod whole_writes;

pub use answer_by::AnswerBy;
pub use call_log::CallLog;
pub use conversation::{hear_line, send_all};
pub use fault_count::FaultCount;
pub use files::{FileFault, Files};
pub use host::{CHILDREN, Host, HostFault};
pub use mem_files::MemFiles;
pub use mem_sink::MemSink;
pub use mem_source::MemSource;
pub use real_files::RealFiles;
pub use real_sink::RealSink;
pub use real_source::RealSource;
pub use retry::{read_some, write_some};
pub use script_host::ScriptHost;
pub use scripts::Script;
pub use sink::{Sink, SinkFault};
pub use source::{Source, SourceFault};
pub use sure_files::SureFiles;
pub use sure_host::SureHost;
pub use sure_sink::SureSink;
pub use whole_writes::write_all;

//! The outside as the program sees it: a source of bytes, a sink, a clock and a gate. Each is a trait that
//! says what it holds, where it tells, and keeps a count of faults that never falls; a call fails only where
//! that count rose. Over memory all is told; over files and standard output nothing is told of content.
#![tactic(auto)]

mod clock;
mod fault_plan;
mod free_gate;
mod gate;
mod lazy_file;
mod mem_clock;
mod mem_sink;
mod mem_source;
mod reader_source;
mod real_clock;
mod retrying;
mod sink;
mod source;
mod stops;
mod word;
mod writer_sink;

pub use clock::Clock;
pub use fault_plan::FaultPlan;
pub use free_gate::FreeGate;
pub use gate::Gate;
pub use lazy_file::LazyFile;
pub use mem_clock::MemClock;
pub use mem_sink::MemSink;
pub use mem_source::MemSource;
pub use reader_source::ReaderSource;
pub use real_clock::RealClock;
pub use sink::Sink;
pub use source::Source;
pub use stops::{Failed, Stop};
pub use word::Word;
pub use writer_sink::WriterSink;

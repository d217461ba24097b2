//! The outside world of the readers: where a file's bytes come from, where text goes, and a gate
//! at which a test can hold a worker.
//!
//! A [`Source`] gives the bytes of named files, a [`Sink`] takes bytes in order. Each has two
//! meanings that contracts cite: what it holds, where it tells that, and a count of faults that
//! never falls. So a caller can say what a call did to the outside world and that a refusal had a
//! cause outside of the program. [`write_all`] and [`read_file`] are the two loops over them.
//!
//! [`FileSource`] and [`StreamSink`] adapt a real file and a real stream; they tell nothing of
//! content. [`MemorySource`], [`MemorySink`], [`NoFaultSource`] and [`NoFaultSink`] live in memory
//! and tell what they hold, which is what tests want.
#![tactic(auto)]

mod faultless;
mod file_source;
mod gates;
mod memory;
mod stops;
mod stream_sink;
mod traits;
mod whole;

pub use faultless::{NoFaultSink, NoFaultSource};
pub use file_source::FileSource;
pub use gates::OpenGate;
pub use memory::{MemorySink, MemorySource};
pub use stops::{ReadStop, WriteStop};
pub use stream_sink::StreamSink;
pub use traits::{Gate, Sink, Source};
pub use whole::{read_file, write_all};

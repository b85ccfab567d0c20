//! Sources and sinks of bytes: what a command is read from, and what a reply is written to.
//!
//! `Source` and `Sink` are the interfaces that everything above is written against, and `put_all` puts a
//! whole piece. `specs/Source.antt` and `specs/Sink.antt` say what one call does, with the laws by which
//! calls compose. `MemSource` and `MemSink` tell everything and fail where that is planned; `StdSource`
//! and `StdSink` adapt the standard library's readers and writers.
#![tactic(auto)]

mod adapter;
mod counts;
mod memory;
mod plan;
mod sink;
mod source;

pub use adapter::{StdSink, StdSource};
pub use memory::{MemSink, MemSource};
pub use sink::{Sink, put_all};
pub use source::Source;

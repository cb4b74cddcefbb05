//! Sources and sinks of bytes that count their faults: the outside of the program, as its contracts see it. In memory they
//! tell every byte; over a reader or a writer of std they tell what that tells, which of a real stream is nothing.
#![tactic(auto)]

mod count_sink;
mod digits;
mod fragment;
mod memory_sink;
mod memory_source;
mod page;
mod sink;
mod source;
mod standard;
mod text;

pub use count_sink::CountSink;
pub use fragment::Fragment;
pub use memory_sink::MemSink;
pub use memory_source::MemSource;
pub use page::Page;
pub use sink::{Sink, WriteFault, write_whole};
pub use source::{ReadAll, ReadFault, Source, read_all};
pub use standard::{StdSink, StdSource};
pub use text::{Text, write_fragments};

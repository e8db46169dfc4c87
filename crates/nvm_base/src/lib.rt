//! The base of every layer: lists whose clauses see plain lists, input and output of bytes, and
//! operations on 64-bit words. It rests on the standard library alone. Its one contract for the
//! crates above: the operations are those of `specs/Operations.antt`, and a source or sink fails
//! only if its count of faults rose.
#![tactic(auto)]

mod input;
mod kept_sink;
mod kept_source;
mod laws;
mod list;
mod mem_sink;
mod mem_source;
mod op;
mod output;
mod reason;
mod saved_file;
mod sink;
mod source;
mod std_notes;
mod std_sink;
mod std_source;
mod steps;
mod text;
mod word;

pub use input::{ReadAllFault, UpToFault, read_all, read_up_to};
pub use kept_sink::KeptSink;
pub use kept_source::KeptSource;
pub use laws::{division_law, word_laws, wrap_law};
pub use list::{Bytes, List, Registers, Words};
pub use mem_sink::MemSink;
pub use mem_source::MemSource;
pub use op::BinOp;
pub use output::{WriteFault, write_all, write_whole};
pub use reason::Reason;
pub use saved_file::SavedFile;
pub use sink::{Sink, WriteAnswer};
pub use source::{ReadAnswer, Source};
pub use std_notes::StdNotes;
pub use std_sink::StdSink;
pub use std_source::StdSource;
pub use steps::Steps;
pub use text::Text;
pub use word::{add, div, less, mul, natural_of, rem, shl, shr, sub, udiv, ule, ult, urem, ushr};

//! The world outside: a shelf of files that are read by name, a sink that takes bytes, and a gate
//! that threads pass. Each is a trait, with one implementation in memory and one over the system.
//! The words of the command line are read here too.
//!
//! ```text
//! let mut shelf = MemShelf::new(alloc, fails);
//! shelf.put_file(alloc, "one.case", text)?;
//! let bytes = shelf.read(alloc, "one.case")?;
//! put_all(&mut sink, &bytes)?;
//! ```
#![tactic(auto)]

mod calls;
mod file_text;
mod gate;
mod lists;
mod mem_shelf;
mod mem_sink;
mod put;
mod real;
mod shelf;
mod sink;
mod words;

pub use file_text::{FileText, Files};
pub use gate::{Gate, GatePlace, OpenGate};
pub use lists::{Bytes, CallNumbers, Items, Name, Names};
pub use mem_shelf::MemShelf;
pub use mem_sink::MemSink;
pub use put::put_all;
pub use real::{FileShelf, MOST_BYTES, StdSink};
pub use shelf::{Shelf, ShelfFault};
pub use sink::{Sink, SinkFault};
pub use words::command_words;

//! The whole program: from its words, which are one command, over any shelf, sink and gate, to what it writes and its exit status.
//!
//! ```text
//! // The words `run one.case`, over a shelf that has the files.
//! command_of(alloc, &words);
//! // Some(Command::Run { case: "one.case" })
//! let status = lxfi(rt, alloc, &words, &mut shelf, &mut sink, &OpenGate);
//! // 0, and the sink has the report; 2 where the words are no command; 4 where a file was not read.
//! ```
#![tactic(auto)]

mod answer;
mod command;
mod count;
mod generate;
mod images;
mod plain;
mod surface;
mod top;
mod tree;
mod words;

pub use answer::{Answer, answer_text, status_of};
pub use top::{WANT_OF_MEMORY, lxfi, write_text};
pub use words::{Command, command_of};

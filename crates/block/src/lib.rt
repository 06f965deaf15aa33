// The 512-byte block that cards exchange: fifteen big-endian words, then zeros.
#![tactic(auto)]

mod ballot;
mod codec;
mod fault;
mod fits;
mod message;
mod place;
mod ranges;
mod words;

pub use ballot::{holder, round};
pub use codec::{loop_back, read_block, write_block};
pub use fault::Fault;
pub use message::{Destination, Kind, Message, Report, Value};

// One card of a group: its table of entries, and the calls that order commands in it.
#![tactic(auto)]

mod checks;
mod deliver;
mod delivered;
mod make;
mod messages;
mod place;
mod propose;
mod refusal;
mod replica;
mod settle;
mod table;
mod takeover;

pub use refusal::Refusal;
pub use replica::Replica;

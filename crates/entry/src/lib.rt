// One entry on one card, and one takeover of an entry: what each rule makes of them.
#![tactic(auto)]

mod answers;
mod ballot;
mod entry;
mod owner;
mod quorum;
mod reports;
mod seats;
mod takeover;

pub use answers::{Answer, Tally};
pub use ballot::{holder_of, next_ballot};
pub use entry::{Entry, Progress, State};
pub use reports::Reported;
pub use takeover::Takeover;

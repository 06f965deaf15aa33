// A cabinet: a group of cards with machines of two makes, what calls on it come to, and what it promises.
#![tactic(auto)]

mod answer;
mod cabinet;
mod calling;
mod follow;
mod make;
mod record;
mod seat;

pub use answer::{Answer, Listed, Ran};
pub use cabinet::Cabinet;
pub use seat::{Make, Seat};

// A card fitted with a machine: the ordering calls of its replica, and run, which applies what was agreed.
#![tactic(auto)]

mod fitting;
mod make;
mod ordering;
mod run;
mod running;

pub use crate::fitting::{Card, Passed};
pub use make::NotMade;
pub use run::{Log, Next, Place, Run};

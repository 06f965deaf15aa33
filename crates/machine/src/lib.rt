// State machines that answer commands. What each one means is a rule in specs/, and each is proved to follow its rule.
#![tactic(auto)]

mod alike;
mod catalogue;
mod cells;
mod list;
mod once;
mod operation;
mod outcome;
mod pool;
mod rule;
mod runs;

pub use alike::{answer_alike, makes_alike, once_alike};
pub use catalogue::{Array, TableCatalogue};
pub use cells::{Cell, Cells};
pub use list::ListCatalogue;
pub use once::Once;
pub use operation::{Operation, UnknownOperation};
pub use outcome::Outcome;
pub use pool::{Count, SparePool};
pub use rule::{Machine, Plain};
pub use runs::{answer_all, run_all};

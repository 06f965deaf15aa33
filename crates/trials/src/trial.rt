// A run of the examples: where they print, and how many came as expected.
use crate::score::Score;

#[derive(Drop)]
pub struct Trial<'a> {
    pub rt: &'a HostRuntime,
    pub score: Score,
}

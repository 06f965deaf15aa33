// A card and what it has run.
use card::Replica;
use machine::Once;

// The last entry passed in each log, 0 for none.
#[derive(Clone, Copy, PartialEq, Eq, Debug)]
pub struct Passed {
    pub pilot: u32,
    pub copilot: u32,
}

// No `Model`: its value would have the state of the machine M, and such a value cannot name what a bound brings.
// The ordering state, what has been passed of it, and the machine that agreed commands are applied to, each once.
#[derive(Drop)]
pub struct Card<M> {
    pub replica: Replica,
    pub passed: Passed,
    pub machine: Once<M>,
}

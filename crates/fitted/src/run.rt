// What run answers, and which entry it passes.
ghost use Rattle.std.specs.Prelude.{◌≡◌};
ghost use Rattle.fitted.specs.Nexts.{log_number};
ghost use Rattle.fitted.specs.Runs.{run_number, place_numbers};

use block::Value;
use command::Command;
use machine::Outcome;

// One of the two logs, by its number.
#[derive(Clone, Copy, PartialEq, Eq, Debug)]
pub enum Log {
    Pilot = 0,
    Copilot = 1,
}

impl From<Log> for u32 {
    ghost from_gives = { λ log number. number ≡ log_number log };

    fn from(log: Log) -> u32 {
        log as u32
    }
}

// An entry of a log, by the numbers that are told outside: 0.5 is entry 5 of log 0. Its log is a number and it has no bounds, since its
// fields are public and `numbers` answers for every place that there can be.
#[derive(Clone, Copy, PartialEq, Eq, Debug)]
pub struct Place {
    pub log: u32,
    pub entry: u32,
}

impl Place {
    // The log and the entry by which a place is told outside, 0.0 where there is none.
    pub fn numbers(place: Option<Place>) -> (u32, u32)
        ensures { result ≡ place_numbers place }
    {
        match place {
            Some(Place { log, entry }) => (log, entry),
            None => (0, 0),
        }
    }
}

#[derive(Clone, Copy, PartialEq, Eq, Debug)]
pub enum Run {
    // A no-op was passed.
    Noop,
    // A command was passed whose identity had run before.
    Repeat,
    // A command ran, with the pair that the machine answered: the outcome, and the value before.
    Ran {
        command: Command,
        outcome: Outcome,
        value: u32,
    },
    // Nothing can be passed before this entry is committed; none where both logs are passed.
    Waits(Option<Place>),
    // There is no place for one more identity, and nothing moved.
    NoPlace,
}

impl Run {
    // A method and no `From`, since it forgets what the answer holds.
    pub fn number(self) -> u32
        ensures { result ≡ run_number self }
    {
        match self {
            Run::Noop => 1,
            Run::Repeat => 2,
            Run::Ran { .. } => 3,
            Run::Waits(_) => 4,
            Run::NoPlace => 5,
        }
    }
}

// What is passed next: an entry of a log, with its value; or what is waited for, which is no error, so no `Result`.
#[derive(Clone, Copy, PartialEq, Eq, Debug)]
pub enum Next {
    Passes(Log, Value),
    Waits(Option<Place>),
}

// How a command came out.
ghost use Rattle.std.specs.Prelude.{◌≡◌};
ghost use Rattle.machine.specs.Outcomes.{number};

// Its number is the one by which it is told outside.
#[derive(Clone, Copy, PartialEq, Eq, Debug)]
pub enum Outcome {
    // Done as asked, a read too.
    Done = 0,
    // What the machine holds does not allow it.
    Refused = 1,
    // Amount 0 where one is needed.
    NoAmount = 2,
    // No such operation, or no such bay.
    Unknown = 3,
    // No place is left for one more identity.
    NoPlace = 4,
    // A command with this identity came before.
    Repeat = 5,
}

impl From<Outcome> for u8 {
    ghost from_gives = { λ outcome told. told ≡ number outcome };

    fn from(outcome: Outcome) -> u8 {
        outcome as u8
    }
}

// Why a call is refused. Each call tests what concerns it in the order of the numbers.
ghost use Rattle.std.specs.Prelude.{◌≡◌};
ghost use Rattle.card.specs.Refusals.{refusal_number};
ghost use Rattle.card.specs.declared.refusal.Refusal.TheVariants.{Block};

use block::Fault;

#[derive(Clone, Copy, PartialEq, Eq, Debug)]
pub enum Refusal {
    // what the reader found wrong with the block
    Block(Fault),
    NotForThisCard,
    WrongSender,
    NoIdentity,
    NoSuchEntry,
    NoSuchGroup,
    NotPilot,
    LogFull,
    NotOpen,
    TooFewAnswers,
    AlreadyCommitted,
    NothingThere,
    NoBallotLeft,
    DifferentCommit,
}

impl Refusal {
    // A method and no `From`, since it forgets the word that a fault names.
    pub fn number(self) -> u32
        ensures { result ≡ refusal_number self }
    {
        match self {
            Refusal::Block(fault) => fault.number(),
            Refusal::NotForThisCard => 4,
            Refusal::WrongSender => 5,
            Refusal::NoIdentity => 6,
            Refusal::NoSuchEntry => 7,
            Refusal::NoSuchGroup => 8,
            Refusal::NotPilot => 11,
            Refusal::LogFull => 12,
            Refusal::NotOpen => 13,
            Refusal::TooFewAnswers => 14,
            Refusal::AlreadyCommitted => 15,
            Refusal::NothingThere => 16,
            Refusal::NoBallotLeft => 17,
            Refusal::DifferentCommit => 18,
        }
    }
}

impl From<Fault> for Refusal {
    ghost from_gives = { λ fault refusal. refusal ≡ Block fault };

    fn from(fault: Fault) -> Refusal {
        Refusal::Block(fault)
    }
}

// What is of one of two makes: a machine, or a card that is fitted with one.
ghost use Rattle.std.specs.Prelude.{◌≡◌};
ghost use Rattle.cabinets.specs.Makes.{seated};
ghost use Rattle.cabinets.specs.New.{MadeSeat};

use card::Replica;
use fitted::{Card, NotMade, Passed};
use machine::Plain;
use std::alloc::Global;

// Of the one make or of the other.
#[derive(Drop)]
pub enum Make<A, B> {
    First(A),
    Second(B),
}

// What stands in a seat: a card fitted with a machine of the one make or of the other. The two are of two types, so each match on them has two
// arms with one text.
pub type Seat<A, B> = Make<Card<A>, Card<B>>;

impl<A: Plain, B: Plain> Seat<A, B> {
    // The card's ordering state.
    pub fn replica(&self) -> &Replica
        ensures { result.now ≡ (seated A.Machine B.Machine self.now).replica }
    {
        match self {
            Make::First(card) => &card.replica,
            Make::Second(card) => &card.replica,
        }
    }

    // The last entry that the card has passed in each log.
    pub fn passed(&self) -> Passed
        ensures { result ≡ (seated A.Machine B.Machine self.now).passed }
    {
        match self {
            Make::First(card) => card.passed,
            Make::Second(card) => card.passed,
        }
    }
}

impl<A: Plain + Drop, B: Plain + Drop> Seat<A, B> {
    // A card in `seat` of a new group of n, over the machine handed to it.
    pub fn make(heap: Global, n: u32, seat: u32, machine: Make<A, B>) -> Result<Seat<A, B>, NotMade>
        ensures { MadeSeat A.Machine B.Machine n seat machine result }
    {
        match machine {
            Make::First(machine) => Ok(Make::First(Card::make(heap, n, seat, machine)?)),
            Make::Second(machine) => Ok(Make::Second(Card::make(heap, n, seat, machine)?)),
        }
    }
}

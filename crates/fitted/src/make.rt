// A new card.
ghost use Rattle.std.specs.Prelude.{◌≡◌};
ghost use Rattle.fitted.specs.declared.make.NotMade.TheVariants.{Refused, NoMemory};

use crate::fitting::{Card, Passed};
use card::{Refusal, Replica};
use machine::{Once, Plain};
use std::alloc::{AllocError, AllocFailed, Global};

// Why there is no card.
#[derive(Clone, Copy, PartialEq, Eq, Debug)]
pub enum NotMade {
    Refused(Refusal),
    NoMemory,
}

impl From<Refusal> for NotMade {
    ghost from_gives = { λ refusal why. why ≡ Refused refusal };

    fn from(refusal: Refusal) -> NotMade {
        NotMade::Refused(refusal)
    }
}

// The library has two errors for the want of memory.
impl From<AllocError> for NotMade {
    ghost from_gives = { λ _ why. why ≡ NoMemory };

    fn from(_failed: AllocError) -> NotMade {
        NotMade::NoMemory
    }
}

impl<T: Drop> From<AllocFailed<T>> for NotMade {
    ghost from_gives = { λ _ why. why ≡ NoMemory };

    fn from(_failed: AllocFailed<T>) -> NotMade {
        NotMade::NoMemory
    }
}

impl<M: Plain + Drop> Card<M> {
    ghost use Rattle.fitted.specs.Makes.{MadeCard};

    // A card in `seat` of a new group of n, over the machine handed to it.
    pub fn make(heap: Global, n: u32, seat: u32, machine: M) -> Result<Card<M>, NotMade>
        ensures { MadeCard M.Machine.rule M.Machine.means n seat machine result }
    {
        let replica = Replica::make(n, seat)?;
        let machine = Once::new(heap, machine)?;
        Ok(Card {
            replica,
            // written out, for the proof goes part by part
            passed: Passed {
                pilot: 0,
                copilot: 0,
            },
            machine,
        })
    }
}

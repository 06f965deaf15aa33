// The pool of spares: a count for each class.
ghost use Rattle.std.specs.Prelude.{◌≡◌, ℕ, List, map};
ghost use Rattle.command.specs.declared.Command.{Command};
ghost use Rattle.machine.specs.OneRules.{OneRule};
ghost use Rattle.machine.specs.Pools.{added, taken, pool};

use crate::cells::{Cell, Cells};
use crate::rule::Machine;

const CLASSES: usize = 16;

// How many spares there are of a class.
#[derive(Clone, Copy)]
pub struct Count(u16);

impl Cell for Count {
    ghost number = { λ held. held.0 };

    ghost puts = { added };

    ghost takes = { taken };

    fn number(self) -> u32 {
        u32::from(self.0)
    }

    fn put(self, amount: u32) -> Option<Count> {
        let sum = self.number().checked_add(amount)?;
        u16::try_from(sum).ok().map(Count)
    }

    fn take(self, amount: u32) -> Option<Count> {
        let rest = self.number().checked_sub(amount)?;
        Some(Count(rest as u16))
    }
}

pub type SparePool = Cells<Count, CLASSES>;

impl SparePool {
    // A function of its own, as the catalogue's is: each promises the rule of its kind.
    pub fn new() -> SparePool
        ensures first { pool.First (⟦<SparePool as Machine>⟧.means result) }
        ensures named { OneRule ⟦<SparePool as Machine>⟧.rule pool }
        // what `apply` leaves and answers is what the pool's rule says
        ensures next { (s : List ℕ) (c : Command) → ⟦<SparePool as Machine>⟧.rule.next s c ≡ pool.next s c }
        ensures answer { (s : List ℕ) (c : Command) → ⟦<SparePool as Machine>⟧.rule.answer s c ≡ pool.answer s c }
    {
        Cells {
            cells: [Count(0); CLASSES],
        }
    }
}

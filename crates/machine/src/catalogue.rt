// The drive catalogue, as a table by bay.
ghost use Rattle.std.specs.Prelude.{◌≡◌, ℕ, List, map};
ghost use Rattle.command.specs.declared.Command.{Command};
ghost use Rattle.machine.specs.Catalogues.{assigned, released, catalogue};
ghost use Rattle.machine.specs.OneRules.{OneRule};

use crate::cells::{Cell, Cells};
use crate::rule::Machine;

pub(crate) const BAYS: usize = 64;

// The array that a bay is assigned to, 0 for none, as commands and answers have it.
#[derive(Clone, Copy)]
pub struct Array(pub(crate) u32);

impl Cell for Array {
    ghost number = { λ held. held.0 };

    ghost puts = { assigned };

    ghost takes = { released };

    fn number(self) -> u32 {
        self.0
    }

    fn put(self, amount: u32) -> Option<Array> {
        (self.0 == 0).then_some(Array(amount))
    }

    fn take(self, amount: u32) -> Option<Array> {
        (self.0 == amount).then_some(Array(0))
    }
}

pub type TableCatalogue = Cells<Array, BAYS>;

impl TableCatalogue {
    // A function of its own, as the pool's is: each promises the rule of its kind.
    pub fn new() -> TableCatalogue
        ensures first { catalogue.First (⟦<TableCatalogue as Machine>⟧.means result) }
        ensures named { OneRule ⟦<TableCatalogue as Machine>⟧.rule catalogue }
        // what `apply` leaves and answers is what the catalogue's rule says
        ensures next { (s : List ℕ) (c : Command) → ⟦<TableCatalogue as Machine>⟧.rule.next s c ≡ catalogue.next s c }
        ensures answer { (s : List ℕ) (c : Command) → ⟦<TableCatalogue as Machine>⟧.rule.answer s c ≡ catalogue.answer s c }
    {
        Cells {
            cells: [Array(0); BAYS],
        }
    }
}

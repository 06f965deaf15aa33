// The drive catalogue as a list of the bays that are assigned: another make than the table, so it shares `settle`, which is the rule, and
// nothing of how bays are kept.
ghost use Rattle.std.specs.Prelude.{◌≡◌, ◌<◌, ◌≤◌, true, IfOk, vec_capacity, slice_index, slice_set, find, ◌==◌};
ghost use Rattle.machine.specs.Catalogues.{assigned, released, catalogue};
ghost use Rattle.machine.specs.Cells.{settled, cells_steady, cells_low};
ghost use Rattle.machine.specs.Listing.{listed, tabled};

use crate::catalogue::{Array, BAYS};
use crate::cells::{Cell, settle};
use crate::operation::Operation;
use crate::outcome::Outcome;
use crate::rule::{Machine, Plain};
use command::Command;
use std::alloc::{AllocError, Global};

// A bay that is assigned, with the number of its array.
#[derive(Clone, Copy)]
struct Assigned {
    bay: u32,
    array: u32,
}

// A list and no map: this make is to keep a list.
#[derive(Drop)]
pub struct ListCatalogue {
    pairs: Vec<Assigned>,
    ghost room: { 64 ≤ vec_capacity pairs },
    ghost ok: { listed pairs.items ≡ true },
}

impl ListCatalogue {
    // Takes the room for every bay, so that no command wants memory later.
    pub fn new(heap: Global) -> Result<ListCatalogue, AllocError>
        ensures { IfOk result (λ m. catalogue.First (tabled m.pairs.items)) }
    {
        let pairs = Vec::with_capacity(heap, BAYS)?;
        Ok(ListCatalogue { pairs })
    }

    // The pair of a bay that is assigned.
    fn find(&self, bay: u32) -> Option<Assigned>
        ensures { result ≡ find (λ (pair : Assigned). pair.bay == bay) self.now.pairs.items }
    {
        self.pairs.iter().copied().find(|pair| pair.bay == bay)
    }

    // The array that a bay holds, 0 for none.
    fn array(&self, bay: u32) -> u32
        ensures { result ≡ slice_index (tabled self.now.pairs.items) bay }
    {
        self.find(bay).map_or(0, |pair| pair.array)
    }

    // Puts the array into a bay that holds none, or empties the bay with 0.
    fn set(&mut self, bay: u32, array: u32)
        requires low { bay < 64 }
        requires free { 0 < array → slice_index (tabled self.old.pairs.items) bay ≡ 0 }
        ensures { tabled self.new.pairs.items ≡ slice_set (tabled self.old.pairs.items) bay array }
    {
        if array == 0 {
            self.pairs.retain(|pair| pair.bay != bay);
        } else {
            self.pairs.push_reserved(Assigned { bay, array });
        }
    }
}

impl Machine for ListCatalogue {
    ghost rule = { catalogue };

    ghost means = { λ s. tabled s.pairs.items };

    ghost steady = { cells_steady 64 (settled assigned released) };

    fn bays(&self) -> u32
        ensures { result ≡ catalogue.bays (tabled self.now.pairs.items) }
    {
        BAYS as u32
    }

    fn apply(&mut self, command: Command) -> (Outcome, u32)
        ensures after { tabled self.new.pairs.items ≡ catalogue.next (tabled self.old.pairs.items) command }
        ensures answer { result ≡ catalogue.answer (tabled self.old.pairs.items) command }
    {
        let Some(operation) = Operation::served(command, BAYS as u32) else {
            return (Outcome::Unknown, 0);
        };
        let held = self.array(command.bay);
        let (outcome, after) = settle(operation, Array(held), command.amount);
        if after.number() != held {
            self.set(command.bay, after.number());
        }
        (outcome, held)
    }
}

impl Plain for ListCatalogue {
    ghost low = { cells_low 64 assigned released };
}

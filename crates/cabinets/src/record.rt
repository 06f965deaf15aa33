// What a cabinet has on record.
ghost use Rattle.std.specs.Prelude.{◌≡◌, map, filter, ◌==◌, IfOk};
ghost use Rattle.cabinets.specs.declared.answer.Ran.{Ran};
ghost use Rattle.cabinets.specs.Promises.{list_in};

use crate::answer::{Listed, Ran};
use crate::cabinet::Cabinet;
use crate::seat::Seat;
use block::Message;
use std::alloc::{AllocError, Global};

// The list of the card in a seat.
fn list_in(heap: Global, ran: &[Ran], seat: usize) -> Result<Vec<Listed>, AllocError>
    ensures { IfOk result (λ v. v.items ≡ map (λ (one : Ran). one.listed) (filter (λ (one : Ran). one.seat == seat) ran.now)) }
{
    ran.iter()
        .filter(|one| one.seat == seat)
        .map(|one| one.listed)
        .collect(heap)
}

impl<A, B> Cabinet<A, B> {
    // The cards by seat.
    pub fn seats(&self) -> &[Seat<A, B>]
        ensures { result.now ≡ self.now.seats.items }
    {
        self.seats.as_slice()
    }

    // Every message that was sent, the oldest first.
    pub fn sent(&self) -> &[Message]
        ensures { result.now ≡ self.now.sent.items }
    {
        self.sent.as_slice()
    }

    // The commands that ran on the card in a seat, with the pairs that its machine answered, the oldest first.
    pub fn list(&self, heap: Global, seat: usize) -> Result<Vec<Listed>, AllocError>
        ensures { IfOk result (λ v. v.items ≡ list_in seat self.now.ran.items) }
    {
        list_in(heap, self.ran.as_slice(), seat)
    }
}

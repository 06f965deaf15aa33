// A cabinet under a list of calls.
ghost use Rattle.std.specs.Prelude.{◌≡◌, [], IfOk, OnOk, OnErr};
ghost use Rattle.cabinets.specs.Cabinets.{group_from, group_of};
ghost use Rattle.cabinets.specs.Groups.{after, answers_to};
ghost use Rattle.cabinets.specs.Makes.{makes};
ghost use Rattle.cabinets.specs.Promises.{Always, Kept};

use crate::answer::Answer;
use crate::cabinet::Cabinet;
use crate::seat::Seat;
use group::Call;
use machine::Plain;
use std::alloc::{AllocError, Global};

impl<A: Plain, B: Plain> Cabinet<A, B> {
    // The cards as they are handed in, of which nothing is noted yet.
    pub fn new(heap: Global, seats: Vec<Seat<A, B>>) -> Cabinet<A, B>
        ensures { group_of A.Machine B.Machine result ≡ group_from A.Machine B.Machine seats.items [] [] [] }
    {
        Cabinet {
            seats,
            sent: Vec::new(heap),
            proposed: Vec::new(heap),
            ran: Vec::new(heap),
        }
    }

    // Makes the calls in turn, and tells what each answered. Without memory for that, none is made.
    pub fn follow(&mut self, heap: Global, calls: &[Call]) -> Result<Vec<Answer>, AllocError>
        ensures after { OnOk result (group_of A.Machine B.Machine self.new ≡ after (makes A.Machine B.Machine) (group_of A.Machine B.Machine self.old) calls.now) }
        ensures answers { IfOk result (λ v. v.items ≡ answers_to (makes A.Machine B.Machine) (group_of A.Machine B.Machine self.old) calls.now) }
        ensures none_made { OnErr result (group_of A.Machine B.Machine self.new ≡ group_of A.Machine B.Machine self.old) }
        ensures always { Always A.Machine B.Machine }
        ensures promise { OnOk result (Kept A.Machine B.Machine (group_of A.Machine B.Machine self.old) (group_of A.Machine B.Machine self.new) calls.now) }
    {
        let mut answers = Vec::with_capacity(heap, calls.len())?;
        self.sent.reserve(calls.len())?;
        self.proposed.reserve(calls.len())?;
        self.ran.reserve(calls.len())?;
        // no `map` with `collect`: all room is taken before the first call, so that none is made where there is too little memory
        for call in calls {
            answers.push_reserved(self.call(*call));
        }
        Ok(answers)
    }
}

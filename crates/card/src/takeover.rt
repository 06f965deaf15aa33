// A card takes an entry over.
ghost use Rattle.std.specs.Prelude.{◌≡◌};
ghost use Rattle.card.specs.Steps.{state_after, answer_of};
ghost use Rattle.card.specs.Taking.{is_nothing, takeover};

use crate::place::Place;
use crate::refusal::Refusal;
use crate::replica::Replica;
use block::Message;
use entry::{Takeover, next_ballot};

impl Replica {
    // Whether the entry lies above everything that this card knows of its log.
    fn is_nothing(&self, at: Place) -> bool
        ensures { result ≡ is_nothing self.now at.log at.entry }
    {
        at.entry > self.highest_held(at.log) && !self.is_awaited(at)
    }

    // Promises the entry to this card's next ballot and asks all for reports. An earlier takeover is forgotten.
    pub fn takeover(&mut self, log: u32, entry: u32) -> Result<Option<Message>, Refusal>
        ensures state { self.new ≡ state_after self.old (takeover self.old log entry) }
        ensures answer { result ≡ answer_of (takeover self.old log entry) }
    {
        let at = Place::of(log, entry)?;
        let held = self.entry(at);
        if held.is_committed() {
            return Err(Refusal::AlreadyCommitted);
        }
        if self.is_nothing(at) {
            return Err(Refusal::NothingThere);
        }
        let ballot = next_ballot(self.seat, held.promised).ok_or(Refusal::NoBallotLeft)?;
        self.change(at, held.promise(ballot));
        self.set_takeover(Takeover::begin(log, entry, ballot, self.seat, held.report()));
        Ok(Some(self.prepare(at, ballot)))
    }
}

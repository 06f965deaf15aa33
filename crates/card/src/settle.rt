// The owner settles on a dependency without waiting for more answers.
ghost use Rattle.std.specs.Prelude.{◌≡◌};
ghost use Rattle.card.specs.Steps.{state_after, answer_of};
ghost use Rattle.card.specs.Settling.{settle};

use crate::place::Place;
use crate::refusal::Refusal;
use crate::replica::Replica;
use block::Message;
use entry::Progress;

impl Replica {
    pub fn settle(&mut self, log: u32, entry: u32) -> Result<Option<Message>, Refusal>
        ensures state { self.new ≡ state_after self.old (settle self.old log entry) }
        ensures answer { result ≡ answer_of (settle self.old log entry) }
    {
        let at = Place::of(log, entry)?;
        let held = self.entry(at);
        if log != self.seat || !held.counts_answers() {
            return Err(Refusal::NotOpen);
        }
        if !held.can_settle(self.n) {
            return Err(Refusal::TooFewAnswers);
        }
        let held = held.settle(self.n, self.seat);
        self.change(at, held);
        Ok(self.announce(at, &held, Some(Progress::Accepts)))
    }
}

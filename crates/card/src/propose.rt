// A pilot proposes a command.
ghost use Rattle.std.specs.Prelude.{◌≡◌};
ghost use Rattle.card.specs.Steps.{state_after, answer_of};
ghost use Rattle.card.specs.Proposing.{is_nameless, propose};

use crate::place::Place;
use crate::refusal::Refusal;
use crate::replica::Replica;
use block::{Message, Value};
use command::Command;

fn is_nameless(command: Command) -> bool
    ensures { result ≡ is_nameless command }
{
    command.identity.client == 0 || command.identity.number == 0
}

impl Replica {
    // Takes the next entry of the own log. It waits for everything that this card holds of the other log.
    pub fn propose(&mut self, command: Command) -> Result<Option<Message>, Refusal>
        ensures state { self.new ≡ state_after self.old (propose self.old command) }
        ensures answer { result ≡ answer_of (propose self.old command) }
    {
        if is_nameless(command) {
            return Err(Refusal::NoIdentity);
        }
        let log = self.seat;
        if log >= 2 {
            return Err(Refusal::NotPilot);
        }
        let taken = self.highest_taken(log);
        if taken >= 128 {
            return Err(Refusal::LogFull);
        }
        let at = Place {
            log,
            entry: taken + 1,
        };
        let dependency = self.highest_held(1 - log);
        let held = self
            .entry(at)
            .propose(log, Value::Command(command), dependency);
        self.change(at, held);
        Ok(Some(self.fast_accept(at, &held)))
    }
}

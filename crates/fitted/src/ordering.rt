// The ordering calls of a card are those of its replica.
ghost use Rattle.std.specs.Prelude.{◌≡◌};
ghost use Rattle.card.specs.Making.{looked_up};
ghost use Rattle.card.specs.Proposing.{propose};
ghost use Rattle.card.specs.Delivering.{deliver};
ghost use Rattle.card.specs.Settling.{settle};
ghost use Rattle.card.specs.Taking.{takeover};
ghost use Rattle.fitted.specs.Meanings.{Follows};

use crate::fitting::Card;
use block::Message;
use card::Refusal;
use command::Command;
use entry::Entry;
use machine::Machine;

// Log and entry are two numbers on these calls, since every two are answered.
impl<M: Machine> Card<M> {
    pub fn look_up(&self, log: u32, entry: u32) -> Result<Entry, Refusal>
        ensures { result ≡ looked_up self.now.replica log entry }
    {
        self.replica.look_up(log, entry)
    }

    pub fn propose(&mut self, command: Command) -> Result<Option<Message>, Refusal>
        ensures { Follows M.Machine self.old self.new (propose self.old.replica command) result }
    {
        self.replica.propose(command)
    }

    pub fn deliver(&mut self, block: &[u8]) -> Result<Option<Message>, Refusal>
        ensures { Follows M.Machine self.old self.new (deliver self.old.replica block.now) result }
    {
        self.replica.deliver(block)
    }

    pub fn settle(&mut self, log: u32, entry: u32) -> Result<Option<Message>, Refusal>
        ensures { Follows M.Machine self.old self.new (settle self.old.replica log entry) result }
    {
        self.replica.settle(log, entry)
    }

    pub fn takeover(&mut self, log: u32, entry: u32) -> Result<Option<Message>, Refusal>
        ensures { Follows M.Machine self.old self.new (takeover self.old.replica log entry) result }
    {
        self.replica.takeover(log, entry)
    }
}

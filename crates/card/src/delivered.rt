// A message as it came.
ghost use Rattle.std.specs.Prelude.{◌≡◌};
ghost use Rattle.card.specs.Tables.{Placed};

use crate::place::Place;
use block::Message;

// What the reader let through, so that its entry has a place.
#[derive(Clone, Copy)]
pub(crate) struct Delivered {
    pub(crate) message: Message,
    ghost placed: { Placed message.log message.entry },
}

impl Delivered {
    pub(crate) fn place(&self) -> Place
        ensures log { result.log ≡ self.now.message.log }
        ensures entry { result.entry ≡ self.now.message.entry }
    {
        Place {
            log: self.message.log,
            entry: self.message.entry,
        }
    }
}

// How many blocks of a capture were read and refused.
ghost use Rattle.std.specs.Prelude.{◌≡◌, Some};
ghost use Rattle.inspect.specs.Counts.{counted, counts_text};

use block::{Fault, Message};
use std::fmt;

#[derive(Clone, Copy, Default)]
pub struct Counts {
    pub blocks: u64,
    pub read: u64,
    pub refused: u64,
}

impl Counts {
    // Counts one more block, by what a reader answers of it.
    pub fn note(&mut self, answer: Result<Message, Fault>)
        ensures { self.new ≡ counted self.old answer }
    {
        self.blocks = self.blocks.saturating_add(1);
        match answer {
            Ok(_) => self.read = self.read.saturating_add(1),
            Err(_) => self.refused = self.refused.saturating_add(1),
        }
    }
}

impl fmt::Display for Counts {
    ghost output = { λ c. Some (counts_text c) };

    fn fmt<W: fmt::Write>(&self, f: &mut fmt::Formatter<W>) -> fmt::Result {
        let Counts {
            blocks,
            read,
            refused,
        } = *self;
        write!(f, "{blocks} blocks, {read} read, {refused} refused")
    }
}

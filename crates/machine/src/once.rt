// A layer over any machine: it gives each command to the machine below at most once.
ghost use Rattle.std.specs.Prelude.{◌≡◌, ◌≤◌, [], MatchResult, vec_len, vec_capacity};

use crate::outcome::Outcome;
use crate::rule::Machine;
use command::{Command, Identity};
use std::alloc::{AllocFailed, Global};

// How many identities a layer keeps.
const PLACES: usize = 256;

// The identities stand in the order in which they came, as the state has them, so they are no set.
#[derive(Drop)]
pub struct Once<M> {
    below: M,
    kept: Vec<Identity>,
    ghost within: { vec_len kept ≤ 256 },
    ghost room: { 256 ≤ vec_capacity kept },
}

impl<M: Machine> Once<M> {
    ghost use Rattle.machine.specs.Onces.{known};
    ghost use Rattle.machine.specs.Meanings.{once_means};

    // Takes the room for every identity, so that no command wants memory later. Without it the machine comes back.
    pub fn new(heap: Global, below: M) -> Result<Once<M>, AllocFailed<M>>
        ensures { MatchResult result (λ o. once_means M.Machine.means o ≡ (M.Machine.means below, [])) (λ back. back.value ≡ below) }
    {
        let Ok(kept) = Vec::with_capacity(heap, PLACES) else {
            return Err(AllocFailed { value: below });
        };
        Ok(Once { below, kept })
    }

    // A method of its own, since each return of `apply` rests on what it says.
    fn is_known(&self, identity: Identity) -> bool
        ensures { result ≡ known self.now.kept.items identity }
    {
        self.kept.contains(&identity)
    }
}

impl<M: Machine> Machine for Once<M> {
    ghost use Rattle.machine.specs.Onces.{once, once_steady};
    ghost use Rattle.machine.specs.Meanings.{once_means};

    ghost rule = { once M.Machine.rule };

    ghost means = { once_means M.Machine.means };

    ghost steady = { once_steady M.Machine.rule M.Machine.steady };

    fn bays(&self) -> u32
        ensures { result ≡ (once M.Machine.rule).bays (once_means M.Machine.means self.now) }
    {
        self.below.bays()
    }

    fn apply(&mut self, command: Command) -> (Outcome, u32)
        ensures after { once_means M.Machine.means self.new ≡ (once M.Machine.rule).next (once_means M.Machine.means self.old) command }
        ensures answer { result ≡ (once M.Machine.rule).answer (once_means M.Machine.means self.old) command }
    {
        if self.is_known(command.identity) {
            return (Outcome::Repeat, 0);
        }
        if self.kept.len() >= PLACES {
            return (Outcome::NoPlace, 0);
        }
        self.kept.push_reserved(command.identity);
        self.below.apply(command)
    }
}

// The table of a card. A log is its number, 0 or 1, as a message and the calls have it, so the other log is `1 - log`.
ghost use Rattle.std.specs.Prelude.{◌≡◌, ◌≤◌, Some};
ghost use Rattle.card.specs.Tables.{entry_at, with_entry, with_takeover, highest_held, highest_taken, is_blocked, is_awaited};

use crate::place::Place;
use crate::replica::Replica;
use entry::{Entry, Takeover};
use scan::{first, highest};

impl Replica {
    pub(crate) fn entry(&self, at: Place) -> Entry
        ensures { result ≡ entry_at self.now at.log at.entry }
    {
        self.logs[at.log as usize][at.entry as usize - 1]
    }

    // The one place where a card's table is written.
    pub(crate) fn change(&mut self, at: Place, new: Entry)
        ensures { self.new ≡ with_entry self.old at.log at.entry new }
    {
        self.logs[at.log as usize][at.entry as usize - 1] = new;
    }

    pub(crate) fn set_takeover(&mut self, takeover: Takeover)
        ensures { self.new ≡ with_takeover self.old (Some takeover) }
    {
        self.takeover = Some(takeover);
    }

    // The highest entry held of a log, 0 for none, as a dependency is. This and the next are two rules, and differ in the test of each.
    pub(crate) fn highest_held(&self, log: u32) -> u32
        requires { log ≤ 1 }
        ensures value { result ≡ highest_held self.now log }
        ensures bound { result ≤ 128 }
    {
        highest(&self.logs[log as usize], |held| held.is_held()) as u32
    }

    // The highest entry of a log that is held or promised, 0 for none.
    pub(crate) fn highest_taken(&self, log: u32) -> u32
        requires { log ≤ 1 }
        ensures value { result ≡ highest_taken self.now log }
        ensures bound { result ≤ 128 }
    {
        highest(&self.logs[log as usize], |held| held.is_taken()) as u32
    }

    // Whether a proposal with a dependency is blocked: this card answered an entry of the other log, above the dependency, that
    // does not wait for the proposal's.
    pub(crate) fn is_blocked(&self, at: Place, dependency: u32) -> bool
        ensures { result ≡ is_blocked self.now at.log at.entry dependency }
    {
        let other = &self.logs[1 - at.log as usize];
        first(other, dependency as usize, |held| held.blocks(at.entry)).is_some()
    }

    // Whether a held entry of the other log waits for this one or a later one.
    pub(crate) fn is_awaited(&self, at: Place) -> bool
        ensures { result ≡ is_awaited self.now at.log at.entry }
    {
        highest(
            &self.logs[1 - at.log as usize],
            |held| held.depends_from(at.entry),
        ) > 0
    }
}

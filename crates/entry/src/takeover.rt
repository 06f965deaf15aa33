// A takeover: a card gathers reports on an entry, chooses what may be committed, and has a majority accept it.
ghost use Rattle.std.specs.Prelude.{◌≡◌};
ghost use Rattle.entry.specs.Takeovers.{begun, is_live, reporting, acknowledging};

use crate::entry::{Entry, Progress};
use crate::quorum::{is_accepted, majority};
use crate::reports::Reported;
use crate::seats::with_seat;

// Its parts are those that the protocol has: two lists by seat, each set and counted without the other, and whether it has chosen.
#[derive(Clone, Copy, PartialEq, Eq, Debug)]
pub struct Takeover {
    pub log: u32,
    pub entry: u32,
    pub ballot: u32,
    pub reports: [Option<Reported>; 7],
    pub chosen: bool,
    pub accepts: [bool; 7],
}

impl Takeover {
    // A takeover by `seat`, with that card's own report. Log and entry are its own two fields.
    pub fn begin(log: u32, entry: u32, ballot: u32, seat: u32, own: Reported) -> Takeover
        ensures { result ≡ begun log entry ballot seat own }
    {
        Takeover {
            log,
            entry,
            ballot,
            reports: with_seat([None; 7], seat, Some(own)),
            chosen: false,
            accepts: [false; 7],
        }
    }

    // Whether replies about this entry at this ballot count: the takeover is of it, and the entry is uncommitted and still
    // promised to it.
    // Three numbers, as a message has them: a place of a table is the card's, above this crate.
    pub fn is_live(&self, log: u32, entry: u32, ballot: u32, held: &Entry) -> bool
        ensures { result ≡ is_live self.now log entry ballot held.now }
    {
        self.log == log
            && self.entry == entry
            && self.ballot == ballot
            && held.promised == ballot
            && !held.is_committed()
    }

    // A report from another seat. At a majority of reports the card, in `seat`, chooses and accepts its choice.
    pub fn hear_report(
        self,
        held: Entry,
        n: u32,
        seat: u32,
        from: u32,
        reported: Reported,
    ) -> (Takeover, Entry, Option<Progress>)
        ensures { result ≡ reporting n seat self held from reported }
    {
        if self.chosen || from >= 7 || self.has_reported(from) {
            return (self, held, None);
        }
        let mut next = self;
        next.reports = with_seat(self.reports, from, Some(reported));
        let reports = next.reports.iter().filter(|reported| reported.is_some());
        if reports.count() < majority(n) {
            return (next, held, None);
        }
        let (value, dependency) = next.choose(n);
        next.chosen = true;
        next.accepts = with_seat(self.accepts, seat, true);
        (
            next,
            held.accept(self.ballot, value, dependency),
            Some(Progress::Accepts),
        )
    }

    // Another seat accepted the choice. At a majority the entry is committed.
    pub fn hear_accept(self, held: Entry, n: u32, from: u32) -> (Takeover, Entry, Option<Progress>)
        ensures { result ≡ acknowledging n self held from }
    {
        if !self.chosen {
            return (self, held, None);
        }
        let mut next = self;
        next.accepts = with_seat(self.accepts, from, true);
        if !is_accepted(&next.accepts, n) {
            return (next, held, None);
        }
        (
            next,
            held.commit(held.value, held.dependency),
            Some(Progress::Commits),
        )
    }
}

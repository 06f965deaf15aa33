// The reports that a takeover has gathered, and what they let it choose.
ghost use Rattle.std.specs.Prelude.{◌≡◌, ◌<◌, None, slice_index_or, IfSome};
ghost use Rattle.std.specs.List.{position_from};
ghost use Rattle.entry.specs.Reports.{is_reported, is_vote_report, better, best_accepted, votes_for, may_be_committed, first_vote, carried_by, choice};

use crate::quorum::majority;
use crate::takeover::Takeover;
use block::{Report, Value};

// What one card reported of the entry: nothing, its vote for the proposal, or what it accepted and at which ballot.
#[derive(Clone, Copy, PartialEq, Eq, Debug)]
pub struct Reported {
    pub report: Report,
    pub value: Value,
    pub dependency: u32,
}

fn is_vote(reported: &Option<Reported>) -> bool
    ensures { result ≡ is_vote_report reported.now }
{
    reported.is_some_and(|reported| reported.report == Report::Vote)
}

// The accepted report with the higher accept ballot; the one at hand where they are equal, for it is of the lower seat.
fn higher(best: Option<Reported>, reported: Option<Reported>) -> Option<Reported>
    ensures { result ≡ better best reported }
{
    let Some(r) = reported else {
        return best;
    };
    let Report::Accepted(ballot) = r.report else {
        return best;
    };
    match best {
        Some(b) if ballot <= b.report.accept_ballot() => best,
        _ => reported,
    }
}

fn carried(reported: Option<Reported>) -> (Value, u32)
    ensures { result ≡ carried_by reported }
{
    reported.map_or((Value::Noop, 0), |r| (r.value, r.dependency))
}

impl Takeover {
    fn best_accepted(&self) -> Option<Reported>
        ensures { result ≡ best_accepted self.now.reports }
    {
        self.reports
            .iter()
            .fold(None, |best, reported| higher(best, *reported))
    }

    pub(crate) fn has_reported(&self, seat: u32) -> bool
        ensures { result ≡ is_reported (slice_index_or self.now.reports seat None) }
    {
        seat < 7 && self.reports[seat as usize].is_some()
    }

    // The votes reported, and the owner's: it voted when it proposed, so it counts where it has not reported itself.
    fn votes(&self) -> usize
        ensures { result ≡ votes_for self.now.log self.now.reports }
    {
        let reported = self
            .reports
            .iter()
            .filter(|reported| is_vote(reported))
            .count();
        if self.has_reported(self.log) {
            reported
        } else {
            reported + 1
        }
    }

    // Enough votes that the proposal may have been committed on the fast path.
    fn may_be_committed(&self, n: u32) -> bool
        ensures { result ≡ may_be_committed n self.now.log self.now.reports }
    {
        self.votes() >= majority(n)
    }

    // The lowest seat that voted.
    fn first_voter(&self) -> Option<usize>
        ensures value { result ≡ position_from is_vote_report 0 self.now.reports }
        ensures bound { IfSome result (λ seat. seat < 7) }
    {
        self.reports.iter().position(|reported| is_vote(reported))
    }

    // The report of the lowest seat that voted. By the seat and not by `find`, since a seat is what the rule names.
    fn first_vote(&self) -> Option<Reported>
        ensures { result ≡ first_vote self.now.reports }
    {
        match self.first_voter() {
            Some(seat) => self.reports[seat],
            None => None,
        }
    }

    // What the takeover may choose: what was accepted at the highest ballot, else what may have been committed on the fast path,
    // else a no-op.
    pub(crate) fn choose(&self, n: u32) -> (Value, u32)
        ensures { result ≡ choice n self.now.log self.now.reports }
    {
        let best = self.best_accepted();
        if best.is_some() {
            carried(best)
        } else if self.may_be_committed(n) {
            carried(self.first_vote())
        } else {
            (Value::Noop, 0)
        }
    }
}

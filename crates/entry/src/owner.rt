// What the owner of an entry makes of the answers to its proposal.
ghost use Rattle.std.specs.Prelude.{◌≡◌};
ghost use Rattle.entry.specs.Owners.{proposing, counts_answers, can_settle, has_fast_quorum, has_two_replies, settling, decided, hearing, acknowledging};

use crate::answers::Answer;
use crate::entry::{Entry, Progress, State};
use crate::quorum::{fast_quorum, is_accepted, majority};
use crate::seats::with_seat;
use block::Value;

// `n` and `seat` are no struct of their own: three of these need the size of the group alone, and one the seat alone.
impl Entry {
    // The owner's own proposal, which it answers itself with a vote.
    pub fn propose(self, seat: u32, value: Value, dependency: u32) -> Entry
        ensures { result ≡ proposing self seat value dependency }
    {
        let mut next = self.answer(value, dependency, dependency, true);
        next.tally.answers = with_seat(self.tally.answers, seat, Some(Answer::Vote(dependency)));
        next
    }

    // Whether answers count: the owner has proposed, and nobody has taken the entry over.
    pub fn counts_answers(&self) -> bool
        ensures { result ≡ counts_answers self.now }
    {
        self.state == State::Answered && self.promised == 0
    }

    // Whether there are answers enough to settle on a dependency. This count and the two below are three rules, each with a test and a number of its
    // own.
    pub fn can_settle(&self, n: u32) -> bool
        ensures { result ≡ can_settle n self.now }
    {
        let answers = self.tally.answers.iter().filter(|answer| answer.is_some());
        answers.count() >= majority(n)
    }

    // The owner accepts, at ballot 0, the dependency that the answers settle on.
    pub fn settle(self, n: u32, seat: u32) -> Entry
        ensures { result ≡ settling n seat self }
    {
        let dependency = self.tally.settle(n);
        let mut next = self.accept(0, self.value, dependency);
        next.tally.accepts = with_seat(self.tally.accepts, seat, true);
        next
    }

    // Enough votes that no takeover can choose otherwise.
    fn has_fast_quorum(&self, n: u32) -> bool
        ensures { result ≡ has_fast_quorum n self.now }
    {
        let votes = self
            .tally
            .answers
            .iter()
            .filter(|answer| matches!(**answer, Some(Answer::Vote(_))));
        votes.count() >= fast_quorum(n)
    }

    // Two replies, so that no fast quorum can come any more.
    fn has_two_replies(&self) -> bool
        ensures { result ≡ has_two_replies self.now }
    {
        let replies = self
            .tally
            .answers
            .iter()
            .filter(|answer| matches!(**answer, Some(Answer::Reply(_))));
        replies.count() >= 2
    }

    // What the answers so far lead to.
    fn decide(self, n: u32, seat: u32) -> (Entry, Option<Progress>)
        ensures { result ≡ decided n seat self }
    {
        if self.has_fast_quorum(n) {
            (
                self.commit(self.value, self.dependency),
                Some(Progress::Commits),
            )
        } else if self.has_two_replies() && self.can_settle(n) {
            (self.settle(n, seat), Some(Progress::Accepts))
        } else {
            (self, None)
        }
    }

    // Another seat's answer, or that there was none; only its first one counts.
    pub fn hear_answer(
        self,
        n: u32,
        seat: u32,
        from: u32,
        answer: Option<Answer>,
    ) -> (Entry, Option<Progress>)
        ensures { result ≡ hearing n seat self from answer }
    {
        if !self.counts_answers() || from >= 7 || self.tally.answers[from as usize].is_some() {
            return (self, None);
        }
        let mut next = self;
        next.tally.answers = with_seat(self.tally.answers, from, answer);
        next.decide(n, seat)
    }

    // Another seat accepted what the owner settled on. At a majority the entry is committed.
    pub fn hear_accept(self, n: u32, from: u32) -> (Entry, Option<Progress>)
        ensures { result ≡ acknowledging n self from }
    {
        if self.state != State::Accepted || self.promised != 0 {
            return (self, None);
        }
        let mut next = self;
        next.tally.accepts = with_seat(self.tally.accepts, from, true);
        if !is_accepted(&next.tally.accepts, n) {
            (next, None)
        } else {
            (
                next.commit(self.value, self.dependency),
                Some(Progress::Commits),
            )
        }
    }
}

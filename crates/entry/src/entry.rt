// One entry on one card.
ghost use Rattle.std.specs.Prelude.{◌≡◌};
ghost use Rattle.entry.specs.Entries.{state_number, is_held, is_committed, is_taken, blocks, depends_from, empty, promising, answering, accepting, committing, report_of};

use crate::answers::Tally;
use crate::reports::Reported;
use block::{Report, Value};

// How far the entry has come here.
#[derive(Clone, Copy, PartialEq, Eq, Debug)]
pub enum State {
    Empty = 0,
    Answered = 1,
    Accepted = 2,
    Committed = 3,
}

impl From<State> for u32 {
    ghost from_gives = { λ state number. number ≡ state_number state };

    fn from(state: State) -> u32 {
        state as u32
    }
}

// What counting an answer, a report or an AcceptOk led to, if it led to anything: the entry is accepted here or committed, which all are then
// told.
#[derive(Clone, Copy, PartialEq, Eq, Debug)]
pub enum Progress {
    Accepts,
    Commits,
}

#[derive(Clone, Copy, PartialEq, Eq, Debug)]
pub struct Entry {
    pub state: State,
    // no ballot below this one is obeyed any more
    pub promised: u32,
    pub accept_ballot: u32,
    pub value: Value,
    pub dependency: u32,
    // this card's own answer to the proposal, which never changes: the dependency, and whether it was a vote; two fields, as the
    // protocol has them and a look-up shows them
    pub answered: u32,
    pub vote: bool,
    // kept by the owner alone
    pub tally: Tally,
}

// A value and its dependency stay two parameters: an entry, a message and a report have them as two fields, as the block has them in two
// words. Empty entries come of `empty` and not of `Default`, since what is empty is a rule.
impl Entry {
    pub fn empty() -> Entry
        ensures { result ≡ empty }
    {
        Entry {
            state: State::Empty,
            promised: 0,
            accept_ballot: 0,
            value: Value::Nothing,
            dependency: 0,
            answered: 0,
            vote: false,
            tally: Tally {
                answers: [None; 7],
                accepts: [false; 7],
            },
        }
    }

    pub fn is_held(&self) -> bool
        ensures { result ≡ is_held self.now.state }
    {
        self.state != State::Empty
    }

    pub fn is_committed(&self) -> bool
        ensures { result ≡ is_committed self.now.state }
    {
        self.state == State::Committed
    }

    // Held or promised: a proposal goes above every such entry.
    pub fn is_taken(&self) -> bool
        ensures { result ≡ is_taken self.now }
    {
        self.is_held() || self.promised > 0
    }

    // Answered here with a dependency below an entry of the other log: the two would not wait for one another.
    pub fn blocks(&self, entry: u32) -> bool
        ensures { result ≡ blocks entry self.now }
    {
        (self.vote || self.answered > 0) && self.answered < entry
    }

    // Held, and waits for an entry of the other log or a later one.
    pub fn depends_from(&self, entry: u32) -> bool
        ensures { result ≡ depends_from entry self.now }
    {
        self.is_held() && entry <= self.dependency
    }

    pub fn promise(self, ballot: u32) -> Entry
        ensures { result ≡ promising self ballot }
    {
        let mut next = self;
        next.promised = ballot;
        next
    }

    // Stores a proposal with this card's answer to it. The answer is kept whatever becomes of the entry.
    pub fn answer(self, value: Value, dependency: u32, answered: u32, vote: bool) -> Entry
        ensures { result ≡ answering self value dependency answered vote }
    {
        Entry {
            state: State::Answered,
            value,
            dependency,
            answered,
            vote,
            ..self
        }
    }

    pub fn accept(self, ballot: u32, value: Value, dependency: u32) -> Entry
        ensures { result ≡ accepting self ballot value dependency }
    {
        Entry {
            state: State::Accepted,
            promised: ballot,
            accept_ballot: ballot,
            value,
            dependency,
            ..self
        }
    }

    pub fn commit(self, value: Value, dependency: u32) -> Entry
        ensures { result ≡ committing self value dependency }
    {
        Entry {
            state: State::Committed,
            value,
            dependency,
            ..self
        }
    }

    // What this card reports of the entry to one that takes it over.
    pub fn report(&self) -> Reported
        ensures { result ≡ report_of self.now }
    {
        match self.state {
            State::Accepted => Reported {
                report: Report::Accepted(self.accept_ballot),
                value: self.value,
                dependency: self.dependency,
            },
            State::Answered if self.vote => Reported {
                report: Report::Vote,
                value: self.value,
                dependency: self.dependency,
            },
            _ => Reported {
                report: Report::Empty,
                value: Value::Nothing,
                dependency: 0,
            },
        }
    }
}

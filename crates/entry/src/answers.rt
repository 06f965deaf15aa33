// The answers to a proposal, as its owner keeps them, and the dependency that they settle on.
ghost use Rattle.std.specs.Prelude.{◌≡◌};
ghost use Rattle.entry.specs.Answers.{dependency_of, is_enough, smaller_of, better_of, settled};

use crate::quorum::majority;

// A seat's first answer: a vote for the proposed dependency, or a reply with the dependency that the seat asks for instead.
#[derive(Clone, Copy, PartialEq, Eq, Debug)]
pub enum Answer {
    Vote(u32),
    Reply(u32),
}

impl Answer {
    // The dependency that the seat asks for.
    fn dependency(self) -> u32
        ensures { result ≡ dependency_of self }
    {
        match self {
            Answer::Vote(dependency) | Answer::Reply(dependency) => dependency,
        }
    }
}

// What an owner knows of its own entry: each seat's first answer, if it was heard, and the seats that accepted at ballot 0. Two lists by
// seat, as the protocol has them: each is set and counted without the other.
#[derive(Clone, Copy, PartialEq, Eq, Debug)]
pub struct Tally {
    pub answers: [Option<Answer>; 7],
    pub accepts: [bool; 7],
}

impl Tally {
    // Whether a majority of the answers does not exceed a dependency.
    fn is_enough(&self, n: u32, dependency: u32) -> bool
        ensures { result ≡ is_enough self.now.answers n dependency }
    {
        let within = self
            .answers
            .iter()
            .filter(|a| a.is_some_and(|a| a.dependency() <= dependency));
        within.count() >= majority(n)
    }

    // The smaller of two dependencies, if a majority of the answers does not exceed it.
    fn smaller(&self, n: u32, best: u32, dependency: u32) -> u32
        ensures { result ≡ smaller_of self.now.answers n best dependency }
    {
        if dependency < best && self.is_enough(n, dependency) {
            dependency
        } else {
            best
        }
    }

    fn better(&self, n: u32, best: u32, answer: Option<Answer>) -> u32
        ensures { result ≡ better_of self.now.answers n best answer }
    {
        match answer {
            Some(answer) => self.smaller(n, best, answer.dependency()),
            None => best,
        }
    }

    // The smallest answered dependency that a majority of the answers does not exceed. None exceeds 128.
    pub(crate) fn settle(&self, n: u32) -> u32
        ensures { result ≡ settled self.now.answers n }
    {
        self.answers
            .iter()
            .fold(128, |best, answer| self.better(n, best, *answer))
    }
}

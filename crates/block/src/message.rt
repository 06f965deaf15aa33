// What a block says.
ghost use Rattle.std.specs.Prelude.{◌≡◌};
ghost use Rattle.block.specs.Messages.{kind_number, kind_of, to_word, to_of, value_number, asked_by, value_of, report_number, accept_of, report_of, message_words, message_of};

use crate::place::*;
use command::{Command, Identity};

#[derive(Clone, Copy, PartialEq, Eq, Debug)]
pub enum Kind {
    FastAccept = 1,
    FastAcceptOk = 2,
    FastAcceptReply = 3,
    Accept = 4,
    AcceptOk = 5,
    Commit = 6,
    Prepare = 7,
    PrepareOk = 8,
    Reject = 9,
}

// The number that stands for the kind in a block.
impl From<Kind> for u32 {
    ghost from_gives = { λ kind number. number ≡ kind_number kind };

    fn from(kind: Kind) -> u32 {
        kind as u32
    }
}

impl Kind {
    // The kind with that number; 9, and any number that is out of range, is `Reject`. A reader has refused those before, so a
    // `TryFrom` here would have an error that never comes.
    pub(crate) fn of_number(number: u32) -> Kind
        ensures { result ≡ kind_of number }
    {
        match number {
            1 => Kind::FastAccept,
            2 => Kind::FastAcceptOk,
            3 => Kind::FastAcceptReply,
            4 => Kind::Accept,
            5 => Kind::AcceptOk,
            6 => Kind::Commit,
            7 => Kind::Prepare,
            8 => Kind::PrepareOk,
            _ => Kind::Reject,
        }
    }
}

// Where a message goes. No `Option`: all is a destination too, and not the want of one.
#[derive(Clone, Copy, PartialEq, Eq, Debug)]
pub enum Destination {
    All,
    Seat(u32),
}

impl Destination {
    // 255 stands for all. There is no seat 255: a message to it is written as to 256, so that it is refused as to any seat above 6.
    pub(crate) fn word(self) -> u32
        ensures { result ≡ to_word self }
    {
        match self {
            Destination::All => 255,
            Destination::Seat(255) => 256,
            Destination::Seat(seat) => seat,
        }
    }

    // No `From`, which could not be kept inside this crate: two seats, 255 and 256, have one word.
    pub(crate) fn of_word(word: u32) -> Destination
        ensures { result ≡ to_of word }
    {
        if word == 255 {
            Destination::All
        } else {
            Destination::Seat(word)
        }
    }
}

// What an entry holds. Nothing is a kind of value in a block, with a number of its own, so this is no `Option` of the other two, which could
// not have the methods below.
#[derive(Clone, Copy, PartialEq, Eq, Debug)]
pub enum Value {
    Nothing,
    Noop,
    Command(Command),
}

impl Value {
    // The number that stands for the value's kind in a block. A method and no `From`, since it forgets the command.
    pub fn number(self) -> u32
        ensures { result ≡ value_number self }
    {
        match self {
            Value::Nothing => 0,
            Value::Noop => 1,
            Value::Command(_) => 2,
        }
    }

    // The command, all zeros where there is none: what stands in the block's words for it.
    pub(crate) fn asked(self) -> Command
        ensures { result ≡ asked_by self }
    {
        match self {
            Value::Nothing | Value::Noop => Command::default(),
            Value::Command(command) => command,
        }
    }

    // By the numbers above. No `TryFrom`: its error would never come, for a reader has checked the ranges before.
    pub(crate) fn of_words(kind: u32, command: Command) -> Value
        ensures { result ≡ value_of kind command }
    {
        match kind {
            2 => Value::Command(command),
            1 => Value::Noop,
            _ => Value::Nothing,
        }
    }
}

// What a card reports of an entry that is taken over: nothing, its vote, or what it accepted at the ballot given. No `Option`: a card that
// reports nothing has reported, and `None` stands for one that has not.
#[derive(Clone, Copy, PartialEq, Eq, Debug)]
pub enum Report {
    Empty,
    Vote,
    Accepted(u32),
}

impl Report {
    // The number that stands for the report in a block. A method and no `From`, since it forgets the ballot.
    pub fn number(self) -> u32
        ensures { result ≡ report_number self }
    {
        match self {
            Report::Empty => 0,
            Report::Vote => 1,
            Report::Accepted(_) => 2,
        }
    }

    // The ballot at which the card accepted, 0 where it reports no such thing.
    pub fn accept_ballot(self) -> u32
        ensures { result ≡ accept_of self }
    {
        match self {
            Report::Empty | Report::Vote => 0,
            Report::Accepted(ballot) => ballot,
        }
    }

    // By the numbers above. No `TryFrom`: its error would never come, for a reader has checked the ranges before.
    pub(crate) fn of_words(report: u32, accept_ballot: u32) -> Report
        ensures { result ≡ report_of report accept_ballot }
    {
        match report {
            2 => Report::Accepted(accept_ballot),
            1 => Report::Vote,
            _ => Report::Empty,
        }
    }
}

// One message between cards, about one entry of one log.
#[derive(Clone, Copy, PartialEq, Eq, Debug)]
pub struct Message {
    pub kind: Kind,
    pub from: u32,
    pub to: Destination,
    pub log: u32,
    pub entry: u32,
    pub ballot: u32,
    pub value: Value,
    pub dependency: u32,
    pub report: Report,
}

impl Message {
    // Methods and no `From`, which could not be kept inside this crate: of words that were not checked this gives some message.
    pub(crate) fn words(&self) -> [u32; 15]
        ensures { result ≡ message_words self.now }
    {
        let command = self.value.asked();
        [
            u32::from(self.kind),
            self.from,
            self.to.word(),
            self.log,
            self.entry,
            self.ballot,
            self.value.number(),
            command.identity.client,
            command.identity.number,
            command.operation,
            command.bay,
            command.amount,
            self.dependency,
            self.report.number(),
            self.report.accept_ballot(),
        ]
    }

    pub(crate) fn of_words(words: &[u32; 15]) -> Message
        ensures { result ≡ message_of words.now }
    {
        let command = Command {
            identity: Identity {
                client: words[CLIENT],
                number: words[NUMBER],
            },
            operation: words[OPERATION],
            bay: words[BAY],
            amount: words[AMOUNT],
        };
        Message {
            kind: Kind::of_number(words[KIND]),
            from: words[FROM],
            to: Destination::of_word(words[TO]),
            log: words[LOG],
            entry: words[ENTRY],
            ballot: words[BALLOT],
            value: Value::of_words(words[VALUE_KIND], command),
            dependency: words[DEPENDENCY],
            report: Report::of_words(words[REPORT], words[ACCEPT_BALLOT]),
        }
    }
}

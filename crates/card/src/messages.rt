// What a card says.
ghost use Rattle.std.specs.Prelude.{◌≡◌};
ghost use Rattle.block.specs.declared.message.Report.TheVariants as report;
ghost use Rattle.card.specs.Messages.{message_of, bare, fast_accept_message, fast_answer, accept, accept_ok_message, commit, prepare, prepare_ok_message, reject, announced};

use crate::place::Place;
use crate::replica::Replica;
use block::{Destination, Kind, Message, Report, Value};
use entry::{Entry, Progress, Reported};

impl Replica {
    // A message with nothing but its kind, its ends and its entry.
    fn bare(&self, kind: Kind, to: Destination, at: Place) -> Message
        ensures { result ≡ bare kind self.now.seat to at.log at.entry }
    {
        Message {
            kind,
            from: self.seat,
            to,
            log: at.log,
            entry: at.entry,
            ballot: 0,
            value: Value::Nothing,
            dependency: 0,
            report: Report::Empty,
        }
    }

    // A message with what the entry holds.
    fn carrying(&self, kind: Kind, to: Destination, at: Place, held: &Entry) -> Message
        ensures { result ≡ message_of kind self.now.seat to at.log at.entry 0 held.now.value held.now.dependency report.Empty }
    {
        Message {
            value: held.value,
            dependency: held.dependency,
            ..self.bare(kind, to, at)
        }
    }

    pub(crate) fn fast_accept(&self, at: Place, held: &Entry) -> Message
        ensures { result ≡ fast_accept_message self.now.seat at.log at.entry held.now }
    {
        self.carrying(Kind::FastAccept, Destination::All, at, held)
    }

    // This card's answer to a proposal, as it gave it the first time.
    pub(crate) fn fast_answer(&self, to: u32, at: Place, held: &Entry) -> Message
        ensures { result ≡ fast_answer self.now.seat to at.log at.entry held.now }
    {
        if held.vote {
            self.bare(Kind::FastAcceptOk, Destination::Seat(to), at)
        } else {
            Message {
                dependency: held.answered,
                ..self.bare(Kind::FastAcceptReply, Destination::Seat(to), at)
            }
        }
    }

    fn accept(&self, at: Place, held: &Entry) -> Message
        ensures { result ≡ accept self.now.seat at.log at.entry held.now }
    {
        Message {
            ballot: held.accept_ballot,
            ..self.carrying(Kind::Accept, Destination::All, at, held)
        }
    }

    pub(crate) fn accept_ok(&self, to: u32, at: Place, ballot: u32) -> Message
        ensures { result ≡ accept_ok_message self.now.seat to at.log at.entry ballot }
    {
        Message {
            ballot,
            ..self.bare(Kind::AcceptOk, Destination::Seat(to), at)
        }
    }

    pub(crate) fn commit(&self, to: Destination, at: Place, held: &Entry) -> Message
        ensures { result ≡ commit self.now.seat to at.log at.entry held.now }
    {
        self.carrying(Kind::Commit, to, at, held)
    }

    pub(crate) fn prepare(&self, at: Place, ballot: u32) -> Message
        ensures { result ≡ prepare self.now.seat at.log at.entry ballot }
    {
        Message {
            ballot,
            ..self.bare(Kind::Prepare, Destination::All, at)
        }
    }

    pub(crate) fn prepare_ok(&self, to: u32, at: Place, ballot: u32, own: Reported) -> Message
        ensures { result ≡ prepare_ok_message self.now.seat to at.log at.entry ballot own }
    {
        Message {
            ballot,
            value: own.value,
            dependency: own.dependency,
            report: own.report,
            ..self.bare(Kind::PrepareOk, Destination::Seat(to), at)
        }
    }

    pub(crate) fn reject(&self, to: u32, at: Place, held: &Entry) -> Message
        ensures { result ≡ reject self.now.seat to at.log at.entry held.now }
    {
        Message {
            ballot: held.promised,
            ..self.bare(Kind::Reject, Destination::Seat(to), at)
        }
    }

    // What all are told once an entry is accepted or committed here.
    pub(crate) fn announce(
        &self,
        at: Place,
        held: &Entry,
        progress: Option<Progress>,
    ) -> Option<Message>
        ensures { result ≡ announced self.now.seat at.log at.entry held.now progress }
    {
        Some(match progress? {
            Progress::Accepts => self.accept(at, held),
            Progress::Commits => self.commit(Destination::All, at, held),
        })
    }
}

// Whether a message is for this card, and from whom it may come.
ghost use Rattle.std.specs.Prelude.{◌≡◌};
ghost use Rattle.card.specs.Checks.{is_reply, is_request, is_addressed, is_mine, is_of_group, is_from_peer};

use crate::replica::Replica;
use block::{Destination, Kind, Message, holder};
use entry::holder_of;

// A kind that answers a ballot, and so goes to the seat that holds it.
fn is_reply(kind: Kind) -> bool
    ensures { result ≡ is_reply kind }
{
    matches!(
        kind,
        Kind::FastAcceptOk | Kind::FastAcceptReply | Kind::AcceptOk | Kind::PrepareOk
    )
}

// A kind that only the holder of its ballot sends.
fn is_request(kind: Kind) -> bool
    ensures { result ≡ is_request kind }
{
    matches!(kind, Kind::FastAccept | Kind::Accept | Kind::Prepare)
}

// 0, or held by a seat of the group.
fn is_of_group(n: u32, ballot: u32) -> bool
    ensures { result ≡ is_of_group n ballot }
{
    ballot == 0 || holder(ballot) < n
}

fn is_addressed(to: Destination, seat: u32) -> bool
    ensures { result ≡ is_addressed to seat }
{
    match to {
        Destination::All => true,
        Destination::Seat(to) => to == seat,
    }
}

impl Replica {
    pub(crate) fn is_mine(&self, message: &Message) -> bool
        ensures { result ≡ is_mine self.now message.now }
    {
        is_addressed(message.to, self.seat)
            && (!is_reply(message.kind) || holder_of(message.log, message.ballot) == self.seat)
    }

    pub(crate) fn is_from_peer(&self, message: &Message) -> bool
        ensures { result ≡ is_from_peer self.now message.now }
    {
        message.from < self.n
            && message.from != self.seat
            && (!is_request(message.kind) || holder_of(message.log, message.ballot) == message.from)
            && is_of_group(self.n, message.ballot)
            && is_of_group(self.n, message.report.accept_ballot())
    }
}

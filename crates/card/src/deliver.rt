// A card takes a block in.
ghost use Rattle.std.specs.Prelude.{◌≡◌};
ghost use Rattle.card.specs.Steps.{state_after, answer_of};
ghost use Rattle.card.specs.Delivering.{answers, stores, hears, acknowledges_owner, acknowledges_takeover, reports, turn, deliver};

use crate::delivered::Delivered;
use crate::place::Place;
use crate::refusal::Refusal;
use crate::replica::Replica;
use block::{Destination, Kind, Message, Value, read_block};
use entry::{Answer, Entry, Progress, Reported, State};

// The entry, `held`, is handed along with the message, so that the table is read once.
impl Replica {
    // Stores a proposal with this card's answer: a vote, or, where it is blocked, a reply with all that this card holds.
    fn answer(&mut self, d: &Delivered, held: Entry) -> Option<Message>
        ensures { (self.new, result) ≡ answers self.old d.now.message held }
    {
        let m = &d.message;
        let at = d.place();
        let held = if self.is_blocked(at, m.dependency) {
            held.answer(m.value, m.dependency, self.highest_held(1 - m.log), false)
        } else {
            held.answer(m.value, m.dependency, m.dependency, true)
        };
        self.change(at, held);
        Some(self.fast_answer(m.from, at, &held))
    }

    // Stores an entry that was counted on, and tells all what it came to.
    fn store(&mut self, at: Place, held: Entry, progress: Option<Progress>) -> Option<Message>
        ensures { (self.new, result) ≡ stores self.old at.log at.entry (held, progress) }
    {
        self.change(at, held);
        self.announce(at, &held, progress)
    }

    // An answer to this card's own proposal.
    fn hear_answer(&mut self, d: &Delivered, held: Entry, answer: Answer) -> Option<Message>
        ensures { (self.new, result) ≡ hears self.old d.now.message held answer }
    {
        let (held, progress) = held.hear_answer(self.n, self.seat, d.message.from, Some(answer));
        self.store(d.place(), held, progress)
    }

    // A seat accepted what this card, the owner, settled on.
    fn hear_owner_accept(&mut self, d: &Delivered, held: Entry) -> Option<Message>
        ensures { (self.new, result) ≡ acknowledges_owner self.old d.now.message held }
    {
        let (held, progress) = held.hear_accept(self.n, d.message.from);
        self.store(d.place(), held, progress)
    }

    // A seat accepted what this card chose in its takeover.
    fn hear_takeover_accept(&mut self, d: &Delivered, held: Entry) -> Option<Message>
        ensures { (self.new, result) ≡ acknowledges_takeover self.old d.now.message held }
    {
        let m = &d.message;
        let takeover = self.takeover?;
        if !takeover.is_live(m.log, m.entry, m.ballot, &held) {
            return None;
        }
        let (takeover, held, progress) = takeover.hear_accept(held, self.n, m.from);
        self.set_takeover(takeover);
        self.store(d.place(), held, progress)
    }

    // A report to this card's takeover. It begins as the function above: one for both would have to say what each rule makes of a takeover that
    // is not live.
    fn hear_report(&mut self, d: &Delivered, held: Entry) -> Option<Message>
        ensures { (self.new, result) ≡ reports self.old d.now.message held }
    {
        let m = &d.message;
        // no `From`: a message is no report, though one kind of it has one
        let reported = Reported {
            report: m.report,
            value: m.value,
            dependency: m.dependency,
        };
        let takeover = self.takeover?;
        if !takeover.is_live(m.log, m.entry, m.ballot, &held) {
            return None;
        }
        let (takeover, held, progress) = takeover.hear_report(
            held, self.n, self.seat, m.from, reported,
        );
        self.set_takeover(takeover);
        self.store(d.place(), held, progress)
    }

    // What a message does follows from the entry's state and the message's kind together.
    fn turn(&mut self, d: &Delivered) -> Result<Option<Message>, Refusal>
        ensures state { self.new ≡ state_after self.old (turn self.old d.now.message) }
        ensures answer { result ≡ answer_of (turn self.old d.now.message) }
    {
        let m = &d.message;
        let at = d.place();
        let held = self.entry(at);
        match (held.state, m.kind) {
            (State::Committed, Kind::FastAccept | Kind::Accept | Kind::Prepare) => Ok(Some(
                self.commit(Destination::Seat(m.from), at, &held),
            )),
            (_, Kind::FastAccept) if held.promised > 0 => {
                Ok(Some(self.reject(m.from, at, &held)))
            }
            (State::Empty, Kind::FastAccept) => Ok(self.answer(d, held)),
            (State::Answered, Kind::FastAccept) => Ok(Some(self.fast_answer(m.from, at, &held))),
            (State::Answered, Kind::FastAcceptOk) => {
                Ok(self.hear_answer(d, held, Answer::Vote(held.dependency)))
            }
            (State::Answered, Kind::FastAcceptReply) => {
                Ok(self.hear_answer(d, held, Answer::Reply(m.dependency)))
            }
            (_, Kind::Accept) if m.ballot < held.promised => {
                Ok(Some(self.reject(m.from, at, &held)))
            }
            (_, Kind::Accept) => {
                self.change(at, held.accept(m.ballot, m.value, m.dependency));
                Ok(Some(self.accept_ok(m.from, at, m.ballot)))
            }
            (State::Accepted, Kind::AcceptOk) if m.ballot == 0 => {
                Ok(self.hear_owner_accept(d, held))
            }
            (State::Empty | State::Answered | State::Accepted, Kind::AcceptOk) if m.ballot > 0 => {
                Ok(self.hear_takeover_accept(d, held))
            }
            (State::Committed, Kind::Commit) => {
                if held.value == m.value && held.dependency == m.dependency {
                    Ok(None)
                } else {
                    Err(Refusal::DifferentCommit)
                }
            }
            (_, Kind::Commit) => {
                self.change(at, held.commit(m.value, m.dependency));
                Ok(None)
            }
            (_, Kind::Prepare) if m.ballot <= held.promised => {
                Ok(Some(self.reject(m.from, at, &held)))
            }
            (_, Kind::Prepare) => {
                self.change(at, held.promise(m.ballot));
                Ok(Some(self.prepare_ok(m.from, at, m.ballot, held.report())))
            }
            (State::Empty | State::Answered | State::Accepted, Kind::PrepareOk) => {
                Ok(self.hear_report(d, held))
            }
            (State::Empty | State::Answered | State::Accepted, Kind::Reject)
                if held.promised < m.ballot => {
                self.change(at, held.promise(m.ballot));
                Ok(None)
            }
            _ => Ok(None),
        }
    }

    // Reads a block and does what its message asks, if it is for this card and from one that may send it.
    pub fn deliver(&mut self, block: &[u8]) -> Result<Option<Message>, Refusal>
        ensures state { self.new ≡ state_after self.old (deliver self.old block.now) }
        ensures answer { result ≡ answer_of (deliver self.old block.now) }
    {
        let delivered = Delivered {
            message: read_block(block)?,
        };
        if !self.is_mine(&delivered.message) {
            return Err(Refusal::NotForThisCard);
        }
        if !self.is_from_peer(&delivered.message) {
            return Err(Refusal::WrongSender);
        }
        self.turn(&delivered)
    }
}

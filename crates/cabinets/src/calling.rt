// One call after another on the cards of a cabinet.
ghost use Rattle.std.specs.Prelude.{◌≡◌, ℕ, ◌+◌, ◌<◌, ◌≤◌, ◌++◌, vec_len, vec_capacity};
ghost use Rattle.block.specs.Verdicts.{message_fault};
ghost use Rattle.fitted.specs.Meanings.{meaning_of, Follows};
ghost use Rattle.group.specs.Groups.{carried, one_of};
ghost use Rattle.cabinets.specs.Cabinets.{group_of, HasRoom};
ghost use Rattle.cabinets.specs.Groups.{card_after, answer_from, cards_after, answered, called};
ghost use Rattle.cabinets.specs.Makes.{makes, cards_of};

use crate::answer::Answer;
use crate::cabinet::Cabinet;
use crate::seat::{Make, Seat};
use block::{Fault, Message, write_block};
use card::Refusal;
use fitted::Card;
use group::Call;
use machine::{Machine, Plain};

// A message goes from card to card as a block.
fn carry<M: Machine>(card: &mut Card<M>, message: &Message) -> Result<Option<Message>, Refusal>
    ensures { Follows M.Machine card.old card.new (carried card.old.replica message.now (message_fault message.now 512)) result }
{
    let mut block = [0; 512];
    write_block(message, &mut block)?;
    card.deliver(&block)
}

// What the card of a seat makes of a call.
fn answer<M: Plain>(card: &mut Card<M>, sent: &[Message], call: Call) -> Answer
    ensures state { meaning_of M.Machine.rule M.Machine.means card.new ≡ card_after M.Machine.rule (meaning_of M.Machine.rule M.Machine.means card.old) sent.now call }
    ensures answer { result ≡ answer_from M.Machine.rule (meaning_of M.Machine.rule M.Machine.means card.old) sent.now call }
{
    // a call is data that a list holds, so it is no closure
    match call {
        Call::Propose { command, .. } => Answer::Ordered(card.propose(command)),
        Call::Deliver { message, .. } => match sent.get(message) {
            Some(message) => Answer::Ordered(carry(card, message)),
            None => Answer::Ordered(Err(Refusal::Block(Fault::Length))),
        },
        Call::Settle { log, entry, .. } => Answer::Ordered(card.settle(log, entry)),
        Call::Takeover { log, entry, .. } => Answer::Ordered(card.takeover(log, entry)),
        Call::Run { .. } => Answer::Ran(card.run()),
    }
}

// The card in the call's seat answers, whichever machine it has.
fn on_seat<A: Plain, B: Plain>(seats: &mut [Seat<A, B>], sent: &[Message], call: Call) -> Answer
    ensures cards { cards_of A.Machine B.Machine seats.new ≡ cards_after (makes A.Machine B.Machine) (cards_of A.Machine B.Machine seats.old) sent.now call }
    ensures answer { result ≡ answered (makes A.Machine B.Machine) (cards_of A.Machine B.Machine seats.old) sent.now call }
{
    let seat = call.seat();
    // By its place, not by `get_mut`: that does not promise what the slice holds once the loan is over.
    if seat >= seats.len() {
        return Answer::NoSuchSeat;
    }
    match &mut seats[seat] {
        Make::First(card) => answer(card, sent, call),
        Make::Second(card) => answer(card, sent, call),
    }
}

// Adds the item, if there is one.
fn keep<T>(items: &mut Vec<T>, item: Option<T>)
    requires { vec_len items.old < vec_capacity items.old }
    ensures items { items.new.items ≡ items.old.items ++ one_of item }
    ensures len { vec_len items.new ≤ vec_len items.old + 1 }
    ensures capacity { vec_capacity items.new ≡ vec_capacity items.old }
{
    if let Some(item) = item {
        items.push_reserved(item);
    }
}

impl<A: Plain, B: Plain> Cabinet<A, B> {
    // One call, where there is room for what is kept of it.
    pub(crate) fn call(&mut self, call: Call) -> Answer
        requires { HasRoom self.old 1 }
        ensures after { group_of A.Machine B.Machine self.new ≡ called (makes A.Machine B.Machine) (group_of A.Machine B.Machine self.old) call }
        ensures answer { result ≡ answered (makes A.Machine B.Machine) (group_of A.Machine B.Machine self.old).cards self.old.sent.items call }
        ensures room { (n : ℕ) → HasRoom self.old (n + 1) → HasRoom self.new n }
    {
        let answer = on_seat(self.seats.as_mut_slice(), self.sent.as_slice(), call);
        keep(&mut self.sent, answer.message());
        keep(&mut self.proposed, answer.proposed(call));
        keep(&mut self.ran, answer.ran(call.seat()));
        answer
    }
}

// What a call answers, and what is kept of it.
ghost use Rattle.std.specs.Prelude.{◌≡◌};
ghost use Rattle.cabinets.specs.Groups.{message_in, command_in, ran_in};

use block::Message;
use card::Refusal;
use command::Command;
use fitted::Run;
use group::Call;
use machine::Outcome;

// What the cabinet answers, and not one card: so it has a case for a seat that it has not.
#[derive(Clone, Copy, PartialEq, Eq, Debug)]
pub enum Answer {
    // of a propose, deliver, settle or takeover
    Ordered(Result<Option<Message>, Refusal>),
    // of a run
    Ran(Run),
    NoSuchSeat,
}

// What stands in a card's list: a command that ran, and the pair that the machine answered, the outcome and the value before. An answer of
// run has the same three as fields, since it has no list.
#[derive(Clone, Copy, PartialEq, Eq, Debug)]
pub struct Listed {
    pub command: Command,
    pub outcome: Outcome,
    pub value: u32,
}

// What ran, and on the card of which seat.
#[derive(Clone, Copy, PartialEq, Eq, Debug)]
pub struct Ran {
    pub seat: usize,
    pub listed: Listed,
}

impl Answer {
    // The message that the call sent, if it did.
    pub fn message(self) -> Option<Message>
        ensures { result ≡ message_in self }
    {
        match self {
            Answer::Ordered(Ok(message)) => message,
            _ => None,
        }
    }

    // The command that the call proposed, if it did.
    pub fn proposed(self, call: Call) -> Option<Command>
        ensures { result ≡ command_in call self }
    {
        match self {
            Answer::Ordered(Ok(_)) => call.asks(),
            _ => None,
        }
    }

    // The command that ran on the card in `seat`, if one did.
    pub fn ran(self, seat: usize) -> Option<Ran>
        ensures { result ≡ ran_in seat self }
    {
        match self {
            Answer::Ran(
                Run::Ran {
                    command,
                    outcome,
                    value,
                },
            ) => {
                let listed = Listed {
                    command,
                    outcome,
                    value,
                };
                Some(Ran { seat, listed })
            }
            _ => None,
        }
    }
}

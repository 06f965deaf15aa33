// What may be called on the cards of a group.
ghost use Rattle.std.specs.Prelude.{◌≡◌};
ghost use Rattle.group.specs.Groups.{seat_of, asked_by};

use command::Command;

// A call on the card in `seat`. A delivery names its message by its place among those that were sent in the group, so that nothing
// else is ever delivered; loss is not delivering, and repetition is delivering again. Log and entry are two numbers and no place, since a
// card answers whatever numbers it is asked.
#[derive(Clone, Copy, PartialEq, Eq, Debug)]
pub enum Call {
    Propose { seat: usize, command: Command },
    Deliver { seat: usize, message: usize },
    Settle { seat: usize, log: u32, entry: u32 },
    Takeover { seat: usize, log: u32, entry: u32 },
    Run { seat: usize },
}

impl Call {
    pub fn seat(self) -> usize
        ensures { result ≡ seat_of self }
    {
        match self {
            Call::Propose { seat, .. }
            | Call::Deliver { seat, .. }
            | Call::Settle { seat, .. }
            | Call::Takeover { seat, .. }
            | Call::Run { seat } => seat,
        }
    }

    // The command that the call proposes, if it does.
    pub fn asks(self) -> Option<Command>
        ensures { result ≡ asked_by self }
    {
        match self {
            Call::Propose { command, .. } => Some(command),
            _ => None,
        }
    }
}

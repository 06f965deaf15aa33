// The cards of one cabinet.
use crate::answer::Ran;
use crate::seat::Seat;
use block::Message;
use command::Command;

// The cards by seat, with every message that was sent among them, every command that was proposed, and everything that ran, the oldest first.
// No `Model`, as for a card: its value would have the states of the machines.
#[derive(Drop)]
pub struct Cabinet<A, B> {
    pub(crate) seats: Vec<Seat<A, B>>,
    pub(crate) sent: Vec<Message>,
    pub(crate) proposed: Vec<Command>,
    pub(crate) ran: Vec<Ran>,
}

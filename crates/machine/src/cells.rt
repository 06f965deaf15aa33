// Machines that hold a number in each bay.
ghost use Rattle.std.specs.Prelude.{◌≡◌, ℕ, ◌≤◌, map, option_map};
ghost use Rattle.machine.specs.Cells.{Change, settled, cells, cells_steady, cells_low};

use crate::operation::Operation;
use crate::outcome::Outcome;
use crate::rule::{Machine, Plain};
use command::Command;

// What one bay of a kind holds: a number.
pub trait Cell: Copy {
    ghost number: { Self → ℕ };

    // What the kind's put and take make of the number held and an amount.
    ghost puts: { Change };

    ghost takes: { Change };

    fn number(self) -> u32
        ensures { result ≡ number self };

    // What is held after, or none where what is held does not allow it.
    fn put(self, amount: u32) -> Option<Self>
        ensures { option_map number result ≡ puts (number self) amount };

    fn take(self, amount: u32) -> Option<Self>
        ensures { option_map number result ≡ takes (number self) amount };
}

// What an operation makes of a bay: the outcome, and what the bay holds after.
pub(crate) fn settle<C: Cell>(operation: Operation, held: C, amount: u32) -> (Outcome, C)
    ensures { (result.0, C.number result.1) ≡ settled C.puts C.takes operation (C.number held) amount }
{
    let after = match operation {
        Operation::Read => return (Outcome::Done, held),
        _ if amount == 0 => return (Outcome::NoAmount, held),
        Operation::Put => held.put(amount),
        Operation::Take => held.take(amount),
    };
    after.map_or((Outcome::Refused, held), |after| (Outcome::Done, after))
}

#[derive(Drop)]
pub struct Cells<C, const BAYS: usize> {
    pub(crate) cells: [C; BAYS],
    ghost told: { BAYS ≤ 4294967295 },
}

impl<C: Cell, const BAYS: usize> Machine for Cells<C, BAYS> {
    ghost rule = { cells BAYS (settled C.puts C.takes) };

    ghost means = { λ s. map C.number s.cells };

    ghost steady = { cells_steady BAYS (settled C.puts C.takes) };

    fn bays(&self) -> u32
        ensures { result ≡ (cells BAYS (settled C.puts C.takes)).bays (map C.number self.now.cells) }
    {
        BAYS as u32
    }

    fn apply(&mut self, command: Command) -> (Outcome, u32)
        ensures after { map C.number self.new.cells ≡ (cells BAYS (settled C.puts C.takes)).next (map C.number self.old.cells) command }
        ensures answer { result ≡ (cells BAYS (settled C.puts C.takes)).answer (map C.number self.old.cells) command }
    {
        let Some(operation) = Operation::served(command, BAYS as u32) else {
            return (Outcome::Unknown, 0);
        };
        let bay = command.bay as usize;
        let held = self.cells[bay];
        let (outcome, after) = settle(operation, held, command.amount);
        self.cells[bay] = after;
        (outcome, held.number())
    }
}

impl<C: Cell, const BAYS: usize> Plain for Cells<C, BAYS> {
    ghost low = { cells_low BAYS C.puts C.takes };
}

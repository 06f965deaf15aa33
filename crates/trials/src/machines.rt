// The examples of the machines: each command, with the outcome's number and the value before.
use crate::trial::Trial;
use command::{Command, Identity};
use machine::{ListCatalogue, Machine, Once, SparePool, TableCatalogue};
use std::io;

// A command as its three words, and the pair that answers it. The outcome stands as its number, a value from outside, which the conversion under test does not compute.
#[derive(Clone, Copy)]
struct Example {
    operation: u32,
    bay: u32,
    amount: u32,
    outcome: u8,
    before: u32,
}

const CATALOGUE: [Example; 11] = [
    Example {
        operation: 2,
        bay: 3,
        amount: 9,
        outcome: 0,
        before: 0,
    },
    Example {
        operation: 2,
        bay: 3,
        amount: 9,
        outcome: 1,
        before: 9,
    },
    Example {
        operation: 2,
        bay: 3,
        amount: 0,
        outcome: 2,
        before: 9,
    },
    Example {
        operation: 3,
        bay: 3,
        amount: 4,
        outcome: 1,
        before: 9,
    },
    Example {
        operation: 1,
        bay: 3,
        amount: 7,
        outcome: 0,
        before: 9,
    },
    Example {
        operation: 3,
        bay: 3,
        amount: 9,
        outcome: 0,
        before: 9,
    },
    Example {
        operation: 1,
        bay: 63,
        amount: 0,
        outcome: 0,
        before: 0,
    },
    Example {
        operation: 1,
        bay: 64,
        amount: 0,
        outcome: 3,
        before: 0,
    },
    Example {
        operation: 2,
        bay: 64,
        amount: 0,
        outcome: 3,
        before: 0,
    },
    Example {
        operation: 0,
        bay: 3,
        amount: 9,
        outcome: 3,
        before: 0,
    },
    Example {
        operation: 4,
        bay: 3,
        amount: 9,
        outcome: 3,
        before: 0,
    },
];

const POOL: [Example; 9] = [
    Example {
        operation: 3,
        bay: 0,
        amount: 1,
        outcome: 1,
        before: 0,
    },
    Example {
        operation: 2,
        bay: 0,
        amount: 65_536,
        outcome: 1,
        before: 0,
    },
    Example {
        operation: 2,
        bay: 0,
        amount: 65_535,
        outcome: 0,
        before: 0,
    },
    Example {
        operation: 2,
        bay: 0,
        amount: 1,
        outcome: 1,
        before: 65_535,
    },
    Example {
        operation: 3,
        bay: 0,
        amount: 65_536,
        outcome: 1,
        before: 65_535,
    },
    Example {
        operation: 3,
        bay: 0,
        amount: 65_535,
        outcome: 0,
        before: 65_535,
    },
    Example {
        operation: 1,
        bay: 0,
        amount: 5,
        outcome: 0,
        before: 0,
    },
    Example {
        operation: 1,
        bay: 15,
        amount: 0,
        outcome: 0,
        before: 0,
    },
    Example {
        operation: 1,
        bay: 16,
        amount: 0,
        outcome: 3,
        before: 0,
    },
];

fn numbered(number: u32, e: Example) -> Command {
    Command {
        identity: Identity { client: 1, number },
        operation: e.operation,
        bay: e.bay,
        amount: e.amount,
    }
}

impl Trial<'_> {
    fn try_one<M: Machine>(&mut self, machine: &mut M, number: u32, e: Example) -> io::Result<()> {
        let Example {
            operation,
            bay,
            amount,
            outcome,
            before,
        } = e;
        let (came, value) = machine.apply(numbered(number, e));
        let came = u8::from(came);
        self.score.note(came == outcome && value == before);
        println!(self.rt;
            "  operation {operation} bay {bay} amount {amount}: expected ({outcome},{before}), came ({came},{value})"
        )
    }

    fn try_all<M: Machine>(&mut self, machine: &mut M, examples: &[Example]) -> io::Result<()> {
        for e in examples {
            self.try_one(machine, 1, *e)?;
        }
        Ok(())
    }

    // Both makes of the catalogue answer alike.
    pub fn catalogues(&mut self) -> io::Result<()> {
        println!(self.rt; "drive catalogue, by a table")?;
        self.try_all(&mut TableCatalogue::new(), &CATALOGUE)?;
        println!(self.rt; "drive catalogue, by a list")?;
        let mut list = ListCatalogue::new(self.rt.alloc())?;
        self.try_all(&mut list, &CATALOGUE)
    }

    // The pool at both ends of its range.
    pub fn pool(&mut self) -> io::Result<()> {
        println!(self.rt; "spare pool")?;
        self.try_all(&mut SparePool::new(), &POOL)
    }

    // A spare more with each new identity, up to the last that there is a place for and beyond.
    pub fn once(&mut self) -> io::Result<()> {
        println!(self.rt; "once over a spare pool that 254 identities have reached")?;
        let mut machine = Once::new(self.rt.alloc(), SparePool::new())?;
        let add = Example {
            operation: 2,
            bay: 0,
            amount: 1,
            outcome: 0,
            before: 0,
        };
        for number in 1..255 {
            machine.apply(numbered(number, add));
        }
        self.try_one(&mut machine, 255, Example { before: 254, ..add })?;
        self.try_one(&mut machine, 256, Example { before: 255, ..add })?;
        self.try_one(&mut machine, 257, Example { outcome: 4, ..add })?;
        self.try_one(&mut machine, 256, Example { outcome: 5, ..add })?;
        self.try_one(&mut machine, 1, Example { outcome: 5, ..add })
    }
}

// The examples of a card. Its answers' numbers (0 done, 8 no such group, 12 the log is full) are written out: values from outside, which `Refusal::number` does not compute.
use crate::trial::Trial;
use block::write_block;
use card::{Refusal, Replica};
use command::{Command, Identity};
use std::io;

// The number of an answer: 0, or why the call was refused.
fn answered<T: Drop>(answer: Result<T, Refusal>) -> u32 {
    match answer {
        Ok(_) => 0,
        Err(refusal) => refusal.number(),
    }
}

fn assign(number: u32) -> Command {
    Command {
        identity: Identity { client: 1, number },
        operation: 2,
        bay: 3,
        amount: 9,
    }
}

// The 512 bytes of a block with six words below 256, and zeros.
fn block_of(words: [u8; 6]) -> [u8; 512] {
    let mut block = [0; 512];
    for (bytes, word) in block.chunks_exact_mut(4).zip(words) {
        bytes[3] = word;
    }
    block
}

impl Trial<'_> {
    fn compare(&mut self, what: &str, expected: u32, came: u32) -> io::Result<()> {
        self.score.note(came == expected);
        println!(self.rt; "  {what}: expected {expected}, came {came}")
    }

    // A log has room for 128 proposals.
    pub fn proposals(&mut self) -> io::Result<()> {
        println!(self.rt; "the pilot of three proposes")?;
        let Ok(mut pilot) = Replica::make(3, 0) else {
            return self.compare("make", 0, 8);
        };
        for number in 1..128 {
            let _ = pilot.propose(assign(number));
        }
        let last = answered(pilot.propose(assign(128)));
        self.compare("proposal 128", 0, last)?;
        let over = answered(pilot.propose(assign(129)));
        self.compare("proposal 129", 12, over)
    }

    fn show(&self, what: &str, block: &[u8; 512]) -> io::Result<()> {
        print!(self.rt; "  {what} words")?;
        for word in block.as_chunks::<4>().0.iter().take(6) {
            print!(self.rt; " {}", u32::from_be_bytes(*word))?;
        }
        println!(self.rt; "")
    }

    // Seat 2 of three is asked for a report on 0.1, of which it holds nothing.
    pub fn seat_two(&mut self) -> io::Result<()> {
        println!(self.rt; "seat 2 of three gets words 7 1 255 0 1 9 and zeros")?;
        let Ok(mut card) = Replica::make(3, 2) else {
            return self.compare("make", 0, 8);
        };
        let mut came = [0; 512];
        if let Ok(Some(message)) = card.deliver(&block_of([7, 1, 255, 0, 1, 9])) {
            let _ = write_block(&message, &mut came);
        }
        let expected = block_of([8, 2, 1, 0, 1, 9]);
        self.show("expected", &expected)?;
        self.show("came", &came)?;
        self.score.note(came == expected);
        Ok(())
    }
}

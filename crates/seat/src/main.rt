// Plays seat 2 of three: delivers each block from standard input, and writes a block for each message that is sent.
#![tactic(auto)]

mod reply;

use card::Replica;
use feed::next_block;
use reply::reply;
use std::io;
use std::io::{BufReader, BufWriter, Write};

// A short last block ends it, as the end of the input does.
fn play(rt: &HostRuntime, mut card: Replica) -> io::Result<()> {
    let mut input = BufReader::new(rt.alloc(), rt.stdin())?;
    let mut output = BufWriter::new(rt.alloc(), rt.stdout())?;
    let mut block = [0; 512];
    // a count in place of a loop without end, which is the language's form for a loop that ends with its input
    for _ in 0..u64::MAX {
        if next_block(&mut input, &mut block)?.len() < block.len() {
            break;
        }
        if let Some(answer) = reply(&mut card, &block) {
            output.write_all(&answer)?;
        }
    }
    output.flush()
}

fn main(rt: HostRuntime) -> io::Result<()> {
    match Replica::make(3, 2) {
        Ok(card) => play(&rt, card),
        // there is a seat 2 of three
        Err(_) => unreachable(),
    }
}

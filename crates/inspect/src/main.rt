// Tells a capture of blocks line by line: what each block says or why it is refused, and at the end how many there were.
#![tactic(auto)]

mod counts;
mod line;
mod text;

use counts::Counts;
use feed::next_block;
use line::describe;
use std::io;
use std::io::BufReader;

fn inspect(rt: &HostRuntime) -> io::Result<()> {
    let mut input = BufReader::new(rt.alloc(), rt.stdin())?;
    let mut block = [0; 512];
    let mut counts = Counts::default();
    // a count in place of a loop without end, which is the language's form for a loop that ends with its input
    for _ in 0..u64::MAX {
        let bytes = next_block(&mut input, &mut block)?;
        if bytes.is_empty() {
            break;
        }
        let line = describe(rt.alloc(), &mut counts, bytes)?;
        println!(rt; "{line}")?;
    }
    println!(rt; "{counts}")
}

fn main(rt: HostRuntime) -> io::Result<()> {
    inspect(&rt)
}

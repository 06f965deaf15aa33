// The worked examples that are run: each with what was expected and what came, and at the end how many came as expected.
#![tactic(auto)]

mod cards;
mod machines;
mod score;
mod trial;

use score::Score;
use std::io;
use trial::Trial;

fn run(rt: &HostRuntime) -> io::Result<()> {
    let mut trial = Trial {
        rt,
        score: Score::default(),
    };
    trial.catalogues()?;
    trial.pool()?;
    trial.once()?;
    trial.proposals()?;
    trial.seat_two()?;
    println!(rt; "{}", trial.score)
}

fn main(rt: HostRuntime) -> io::Result<()> {
    run(&rt)
}

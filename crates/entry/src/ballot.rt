// Whose ballot it is, and which one a takeover takes.
ghost use Rattle.std.specs.Prelude.{◌≡◌};
ghost use Rattle.entry.specs.Ballots.{holder_in, next_round, next_ballot};

use block::{holder, round};

// The seat that holds a ballot for an entry of a log. Ballot 0 is the owner's.
pub fn holder_of(log: u32, ballot: u32) -> u32
    ensures { result ≡ holder_in log ballot }
{
    if ballot == 0 { log } else { holder(ballot) }
}

// The round of the smallest ballot of a seat above `promised`: the same round where the seat comes after the holder.
fn next_round(seat: u32, promised: u32) -> u32
    ensures { result ≡ next_round seat promised }
{
    if 1 <= round(promised) && holder(promised) < seat {
        round(promised)
    } else {
        round(promised) + 1
    }
}

// The smallest ballot of a seat above `promised`, if there is one left. The bounds are those of a block, which has them as its definition does.
pub fn next_ballot(seat: u32, promised: u32) -> Option<u32>
    ensures { result ≡ next_ballot seat promised }
{
    let round = next_round(seat, promised);
    if round <= 8191 && seat <= 6 {
        Some(round * 8 + seat)
    } else {
        None
    }
}

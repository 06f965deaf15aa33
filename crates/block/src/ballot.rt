// Ballots: 0, or a round and the seat that holds it, as round × 8 + seat, so that a later round is a higher ballot.
ghost use Rattle.std.specs.Prelude.{◌≡◌};
ghost use Rattle.block.specs.Ballots.{round_of, holder_of, is_ballot};

// The round of a ballot. Ballot 0 is of round 0.
pub fn round(ballot: u32) -> u32
    ensures { result ≡ round_of ballot }
{
    ballot / 8
}

// The seat that holds a ballot of round 1 or later. Ballot 0 belongs to the owner of the log, whatever this answers.
pub fn holder(ballot: u32) -> u32
    ensures { result ≡ holder_of ballot }
{
    ballot % 8
}

// 0, or a round from 1 to 8,191 of a seat from 0 to 6.
pub(crate) fn is_ballot(ballot: u32) -> bool
    ensures { result ≡ is_ballot ballot }
{
    ballot == 0 || (1 <= round(ballot) && round(ballot) <= 8191 && holder(ballot) <= 6)
}

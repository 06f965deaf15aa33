// How many cards a decision needs. A group of n = 2f + 1 cards bears the loss of f.
ghost use Rattle.std.specs.Prelude.{◌≡◌, count_by, nat_le};
ghost use Rattle.entry.specs.Quorums.{faults_of, majority_of, fast_quorum_of};

pub(crate) fn faults(n: u32) -> u32
    ensures { result ≡ faults_of n }
{
    n.saturating_sub(1) / 2
}

// f + 1: any two sets of so many cards share one.
pub(crate) fn majority(n: u32) -> usize
    ensures { result ≡ majority_of n }
{
    faults(n) as usize + 1
}

// Whether so many seats accepted.
pub(crate) fn is_accepted(accepts: &[bool; 7], n: u32) -> bool
    ensures { result ≡ nat_le (majority_of n) (count_by (λ a. a) accepts.now) }
{
    accepts.iter().filter(|accepts| **accepts).count() >= majority(n)
}

// 2f, the owner among them: what commits a proposal as it was made.
pub(crate) fn fast_quorum(n: u32) -> usize
    ensures { result ≡ fast_quorum_of n }
{
    2 * faults(n) as usize
}

// Where an entry stands.
ghost use Rattle.std.specs.Prelude.{◌≡◌, true, false, MatchResult};
ghost use Rattle.card.specs.Tables.{Placed, is_placed};
ghost use Rattle.card.specs.declared.refusal.Refusal.TheVariants.{NoSuchEntry};

use crate::refusal::Refusal;

// An entry of a log, both within the table.
#[derive(Clone, Copy)]
pub(crate) struct Place {
    pub(crate) log: u32,
    pub(crate) entry: u32,
    ghost placed: { Placed log entry },
}

impl Place {
    // The place that a caller names by its numbers. Calls take those two and no place, since there is an answer for every two.
    pub(crate) fn of(log: u32, entry: u32) -> Result<Place, Refusal>
        ensures { MatchResult result (λ p. (is_placed log entry ≡ true) × (p.log ≡ log) × (p.entry ≡ entry)) (λ why. (is_placed log entry ≡ false) × (why ≡ NoSuchEntry)) }
    {
        if log <= 1 && 1 <= entry && entry <= 128 {
            Ok(Place { log, entry })
        } else {
            Err(Refusal::NoSuchEntry)
        }
    }
}

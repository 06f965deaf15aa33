// A new card, and the look at one entry.
ghost use Rattle.std.specs.Prelude.{◌≡◌};
ghost use Rattle.card.specs.Groups.{is_group};
ghost use Rattle.card.specs.Making.{empty_logs, Made, looked_up};

use crate::place::Place;
use crate::refusal::Refusal;
use crate::replica::Replica;
use entry::Entry;

fn is_group(n: u32, seat: u32) -> bool
    ensures { result ≡ is_group n seat }
{
    matches!(n, 3 | 5 | 7) && seat < n
}

// Two logs of empty entries.
fn empty_logs() -> [[Entry; 128]; 2]
    ensures { result ≡ empty_logs }
{
    [[Entry::empty(); 128]; 2]
}

impl Replica {
    // A card in `seat` of a new group of n: two numbers, since there is an answer for every two.
    pub fn make(n: u32, seat: u32) -> Result<Replica, Refusal>
        ensures { Made n seat result }
    {
        if !is_group(n, seat) {
            return Err(Refusal::NoSuchGroup);
        }
        Ok(Replica {
            n,
            seat,
            logs: empty_logs(),
            takeover: None,
        })
    }

    pub fn look_up(&self, log: u32, entry: u32) -> Result<Entry, Refusal>
        ensures { result ≡ looked_up self.now log entry }
    {
        let at = Place::of(log, entry)?;
        Ok(self.entry(at))
    }
}

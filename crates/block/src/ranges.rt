// Which numbers may stand in each word at all.
ghost use Rattle.std.specs.Prelude.{◌≡◌};
ghost use Rattle.block.specs.Ranges.{in_range};
ghost use Rattle.block.specs.Verdicts.{range_fault, unless_fault};

use crate::ballot::is_ballot;
use crate::fault::Fault;
use crate::place::*;

pub(crate) fn in_range(place: usize, word: u32) -> bool
    ensures { result ≡ in_range place word }
{
    match place {
        KIND => 1 <= word && word <= 9,
        FROM => word <= 6,
        TO => word <= 6 || word == 255,
        LOG => word <= 1,
        ENTRY => 1 <= word && word <= 128,
        BALLOT | ACCEPT_BALLOT => is_ballot(word),
        VALUE_KIND | REPORT => word <= 2,
        DEPENDENCY => word <= 128,
        _ => true,
    }
}

// Refuses the lowest word that is out of range. A loop with
// `return`, as the one in fits.rt, and beside it: here a word is judged alone, and by another fault.
pub(crate) fn check_ranges(words: &[u32; 15]) -> Result<(), Fault>
    ensures { result ≡ unless_fault (range_fault words.now) tt }
{
    for (place, word) in words.iter().enumerate() {
        if !in_range(place, *word) {
            return Err(Fault::Range(place));
        }
    }
    Ok(())
}

// A card's ordering state: plain data, without the machine that its commands are applied to.
ghost use Rattle.std.specs.Prelude.{◌≡◌, true};
ghost use Rattle.card.specs.Groups.{is_group};

use entry::{Entry, Takeover};

// Fixed tables, since a card has no heap. A card in `seat` of a group of n. Log 0 is the pilot's, log 1 the copilot's; each has entries 1 to 128.
#[derive(Drop)]
pub struct Replica {
    pub n: u32,
    pub seat: u32,
    pub logs: [[Entry; 128]; 2],
    pub takeover: Option<Takeover>,
    ghost ok: { is_group n seat ≡ true },
}

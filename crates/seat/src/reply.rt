// One block in, at most one block out.
ghost use Rattle.std.specs.Prelude.{◌≡◌};
ghost use Rattle.card.specs.Steps.{state_after, answer_of};
ghost use Rattle.card.specs.Delivering.{deliver};
ghost use Rattle.seat.specs.Replies.{sent_block};

use block::write_block;
use card::Replica;

// Delivers a block, and gives the block of the message that this sends, if it sends one.
pub fn reply(card: &mut Replica, block: &[u8]) -> Option<[u8; 512]>
    ensures card { card.new ≡ state_after card.old (deliver card.old block.now) }
    ensures sent { result ≡ sent_block (answer_of (deliver card.old block.now)) }
{
    let mut out = [0; 512];
    let message = card.deliver(block).ok()??;
    write_block(&message, &mut out).ok()?;
    Some(out)
}

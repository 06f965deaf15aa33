// The reader and the writer.
ghost use Rattle.std.specs.Prelude.{◌≡◌, length, IfOk, Ok, OnOk};
ghost use Rattle.std.specs.Option.{option_map};
ghost use Rattle.block.specs.Faults.{numbered, refusal};
ghost use Rattle.block.specs.Laws.{ReadsBack, Rewrites};
ghost use Rattle.block.specs.Valid.{Valid};
ghost use Rattle.block.specs.Verdicts.{decode, block_fault, tail_fault, unless_fault, message_fault, encoded, buffered};

use crate::fault::Fault;
use crate::fits::check_fits;
use crate::message::Message;
use crate::place::WORDS;
use crate::ranges::check_ranges;
use crate::words::{block_of, words_of};

const SIZE: usize = 512;

// Refuses a byte after the words that is not zero. A loop that returns the refusal from within, and no chain: that the compiler turns into one
// that looks at sixteen bytes at a time, and almost every block is read to its end here.
fn check_tail(block: &[u8; SIZE]) -> Result<(), Fault>
    ensures { result ≡ unless_fault (tail_fault block.now) tt }
{
    let tail = &block[4 * WORDS..];
    for byte in tail {
        if *byte != 0 {
            return Err(Fault::Range(WORDS));
        }
    }
    Ok(())
}

// The message that a block holds, or what is wrong with the block.
pub fn read_block(block: &[u8]) -> Result<Message, Fault>
    ensures value { result ≡ decode block.now }
    ensures numbers { refusal result ≡ option_map numbered (block_fault block.now) }
    ensures valid { IfOk result (λ m. Valid m) }
    ensures rewrites { IfOk result (λ m. encoded m ≡ block.now) }
{
    let block = <&[u8; SIZE]>::try_from(block).map_err(|_| Fault::Length)?;
    let words = words_of(block);
    check_ranges(&words)?;
    check_tail(block)?;
    check_fits(&words)?;
    Ok(Message::of_words(&words))
}

// Writes the block of `message` over the whole of `buffer`, or leaves `buffer` as it was.
pub fn write_block(message: &Message, buffer: &mut [u8]) -> Result<(), Fault>
    ensures value { result ≡ unless_fault (message_fault message.now (length buffer.old)) tt }
    ensures numbers { refusal result ≡ option_map numbered (message_fault message.now (length buffer.old)) }
    ensures after { buffer.new ≡ buffered (message_fault message.now (length buffer.old)) message.now buffer.old }
    ensures reads_back { OnOk result (decode buffer.new ≡ Ok message.now) }
{
    // not by `try_from`, which does not promise what the buffer holds once the loan is over
    if buffer.len() != SIZE {
        return Err(Fault::Length);
    }
    let words = message.words();
    check_ranges(&words)?;
    check_fits(&words)?;
    buffer.copy_from_slice(&block_of(&words));
    Ok(())
}

// Writes the message and reads it back: the message itself, or why it cannot be written. Both round trips hold of every message
// and every block, and not of this one alone.
pub fn loop_back(message: &Message, buffer: &mut [u8]) -> Result<Message, Fault>
    ensures value { result ≡ unless_fault (message_fault message.now (length buffer.old)) message.now }
    ensures after { buffer.new ≡ buffered (message_fault message.now (length buffer.old)) message.now buffer.old }
    ensures reads_back { ReadsBack }
    ensures rewrites { Rewrites }
{
    write_block(message, buffer)?;
    read_block(buffer)
}

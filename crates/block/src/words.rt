// A block as words. A word is four bytes, the highest first.
ghost use Rattle.std.specs.Prelude.{◌≡◌, ◌+◌, ◌*◌, ◌<◌, ◌++◌, length, take, drop};
ghost use Rattle.block.specs.Words.{word_at, words_of, word_bytes, block_of};

use std::array;

// By its four bytes: with `as_chunks` the proof of a word did not close.
fn word_at(block: &[u8; 512], place: usize) -> u32
    requires { place < 15 }
    ensures { result ≡ word_at block.now place }
{
    let at = 4 * place;
    u32::from_be_bytes([block[at], block[at + 1], block[at + 2], block[at + 3]])
}

// The fifteen words of a block.
pub(crate) fn words_of(block: &[u8; 512]) -> [u32; 15]
    ensures { result ≡ words_of block.now }
{
    array::from_fn(|place| word_at(block, place))
}

fn put_word(block: &mut [u8; 512], place: usize, word: u32)
    requires { place < 15 }
    ensures { block.new ≡ take (4 * place) block.old ++ (word_bytes word ++ drop (4 * place + 4) block.old) }
{
    let at = 4 * place;
    block[at..at + 4].copy_from_slice(&word.to_be_bytes());
}

// The block of the words: their bytes, and zeros after them. Not by `chunks_exact_mut`: what is written through it is not told of the block.
pub(crate) fn block_of(words: &[u32; 15]) -> [u8; 512]
    ensures value { result ≡ block_of words.now }
    ensures reads_back { words_of result ≡ words.now }
{
    let mut block = [0; 512];
    for (place, word) in words.iter().enumerate() {
        put_word(&mut block, place, *word);
    }
    block
}

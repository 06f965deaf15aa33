// Whole blocks from an input that comes in pieces.
#![tactic(auto)]

ghost use Rattle.std.specs.Prelude.{◌≤◌, length, IfOk};

use std::io;
use std::io::Read;

// Reads until `block` is full or the input ends, and answers the bytes that came. `take` and `read_to_end` would do the same into a
// `Vec`, but no clause of theirs says that no more than 512 came.
pub fn next_block<'a, R: Read>(input: &mut R, block: &'a mut [u8; 512]) -> io::Result<&'a [u8]>
    ensures { IfOk result (λ came. length came.now ≤ 512) }
{
    let mut filled = 0;
    while filled < block.len() {
        let count = input.read(&mut block[filled..])?;
        if count == 0 {
            break;
        }
        filled += count;
    }
    Ok(&block[..filled])
}

#[cfg(test)]
mod tests {
    use crate::next_block;
    use std::io::Read;
    use std::test::Fail;

    // A block comes whole also where the input comes in pieces, one of them a single byte; what is left is a short one.
    #[test]
    fn pieces_make_a_block(rt: HostRuntime) -> Result<(), Fail> {
        let one: &[u8] = &[7];
        let more: &[u8] = &[9; 600];
        let mut input = one.chain(more);
        let mut block = [0; 512];
        assert_eq!(rt; next_block(&mut input, &mut block)?.len(), 512);
        assert_eq!(rt; block[0], 7);
        assert_eq!(rt; block[1], 9);
        assert_eq!(rt; block[511], 9);
        assert_eq!(rt; next_block(&mut input, &mut block)?.len(), 89);
        assert_eq!(rt; next_block(&mut input, &mut block)?.len(), 0);
        Ok(())
    }

    // What is answered is the bytes that came, and not what the buffer held before or holds behind them.
    #[test]
    fn what_came_is_answered(rt: HostRuntime) -> Result<(), Fail> {
        let whole: &[u8] = &[7; 512];
        let short: &[u8] = &[1, 2, 3];
        let mut input = whole.chain(short);
        let mut block = [0; 512];
        assert_eq!(rt; next_block(&mut input, &mut block)?, whole);
        assert_eq!(rt; next_block(&mut input, &mut block)?, short);
        Ok(())
    }
}

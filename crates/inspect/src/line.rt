// The line of one block.
ghost use Rattle.std.specs.Prelude.{◌≡◌, IfOk, Some, string_bytes};
ghost use Rattle.block.specs.Verdicts.{decode};
ghost use Rattle.inspect.specs.Counts.{counted};
ghost use Rattle.inspect.specs.Lines.{word_name, cause_text, verdict_text, line_of};

use crate::counts::Counts;
use crate::text::InWords;
use block::{Fault, Message, read_block};
use std::alloc::{AllocError, Global};
use std::fmt;

// The name of a word of a block, by the number that a fault gives; no `Display`, since a word is a number and no type. Word 15 is what stands after the words.
fn word_name(word: usize) -> &'static str
    ensures { result.now ≡ word_name word }
{
    match word {
        0 => "kind",
        1 => "from",
        2 => "to",
        3 => "log",
        4 => "entry",
        5 => "ballot",
        6 => "value kind",
        7 => "client",
        8 => "number",
        9 => "operation",
        10 => "bay",
        11 => "amount",
        12 => "dependency",
        13 => "report",
        14 => "accept ballot",
        _ => "bytes after the words",
    }
}

// Why a block of `size` bytes is refused.
#[derive(Drop)]
struct Cause {
    fault: Fault,
    size: usize,
}

impl fmt::Display for Cause {
    ghost output = { λ c. Some (cause_text c.fault c.size) };

    fn fmt<W: fmt::Write>(&self, f: &mut fmt::Formatter<W>) -> fmt::Result {
        match self.fault {
            Fault::Length => {
                let size = self.size;
                write!(f, "not 512 bytes: {size} bytes")
            }
            Fault::Range(word) => {
                let name = word_name(word);
                write!(f, "word out of range: word {word}, {name}")
            }
            Fault::Misfit(word) => {
                let name = word_name(word);
                write!(f, "word does not fit: word {word}, {name}")
            }
        }
    }
}

// What a reader answers of a block of `size` bytes.
#[derive(Drop)]
struct Verdict {
    answer: Result<Message, Fault>,
    size: usize,
}

impl fmt::Display for Verdict {
    ghost output = { λ v. Some (verdict_text v.answer v.size) };

    fn fmt<W: fmt::Write>(&self, f: &mut fmt::Formatter<W>) -> fmt::Result {
        match self.answer {
            Ok(message) => {
                let message = InWords(message);
                write!(f, "{message}")
            }
            Err(fault) => {
                let number = fault.number();
                let size = self.size;
                let cause = Cause { fault, size };
                write!(f, "refused {number}, {cause}")
            }
        }
    }
}

// Counts the next block of a capture, and gives its line. A block's number is how many came before it.
pub fn describe(heap: Global, counts: &mut Counts, block: &[u8]) -> Result<String, AllocError>
    ensures line { IfOk result (λ s. string_bytes s ≡ line_of counts.old.blocks block.now) }
    ensures after { counts.new ≡ counted counts.old (decode block.now) }
{
    let number = counts.blocks;
    let answer = read_block(block);
    counts.note(answer);
    let verdict = Verdict {
        answer,
        size: block.len(),
    };
    format!(in heap; "block {number}: {verdict}")
}

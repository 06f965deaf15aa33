// What is wrong with a block.
ghost use Rattle.std.specs.Prelude.{◌≡◌};
ghost use Rattle.block.specs.Faults.{numbered};

// `Range` and `Misfit` name the lowest word at fault.
#[derive(Clone, Copy, PartialEq, Eq, Debug)]
pub enum Fault {
    Length,
    Range(usize),
    Misfit(usize),
}

impl Fault {
    // The number of the refusal. A method and no `From`, since it forgets the word.
    pub fn number(self) -> u32
        ensures { result ≡ (numbered self).0 }
    {
        match self {
            Fault::Length => 1,
            Fault::Range(_) => 2,
            Fault::Misfit(_) => 3,
        }
    }

    // The word at fault, where the refusal names one.
    pub fn word(self) -> Option<usize>
        ensures { result ≡ (numbered self).1 }
    {
        match self {
            Fault::Length => None,
            Fault::Range(word) | Fault::Misfit(word) => Some(word),
        }
    }
}

// How many examples came as expected. A type beside the `Counts` of `inspect`, which has a case more and another text.
ghost use Rattle.std.specs.Prelude.{◌≡◌, Some};
ghost use Rattle.trials.specs.Scores.{counted, score_text};

use std::fmt;

#[derive(Clone, Copy, Default)]
pub struct Score {
    pub examples: u32,
    pub expected: u32,
}

impl Score {
    // Counts one more example.
    pub fn note(&mut self, as_expected: bool)
        ensures { self.new ≡ counted self.old as_expected }
    {
        self.examples = self.examples.saturating_add(1);
        if as_expected {
            self.expected = self.expected.saturating_add(1);
        }
    }
}

impl fmt::Display for Score {
    ghost output = { λ s. Some (score_text s) };

    fn fmt<W: fmt::Write>(&self, f: &mut fmt::Formatter<W>) -> fmt::Result {
        let Score { examples, expected } = *self;
        write!(f, "{examples} examples, {expected} as expected")
    }
}

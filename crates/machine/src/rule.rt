// What every machine promises.
ghost use Rattle.std.specs.Prelude.{◌≡◌};
ghost use Rattle.machine.specs.Rules.{Rule, Steady, Low};

use crate::outcome::Outcome;
use command::Command;

pub trait Machine {
    // Its kind's rule, and the state of that rule that a value stands for.
    ghost rule: { Rule };

    ghost means: { Self → rule.State };

    // No command changes the number of bays.
    ghost steady: { Steady rule };

    fn bays(&self) -> u32
        ensures { result ≡ rule.bays (means self.now) };

    // Moves to the state that the rule gives, and answers the outcome and the value before.
    fn apply(&mut self, command: Command) -> (Outcome, u32)
        ensures after { means self.new ≡ rule.next (means self.old) command }
        ensures answer { result ≡ rule.answer (means self.old) command };
}

// A machine that leaves the outcomes of the layer `Once` to that layer. No law of `Machine`, since the layer is a machine too.
pub trait Plain: Machine {
    ghost low: { Low Self.Machine.rule };
}

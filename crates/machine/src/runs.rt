// Whole lists of commands, over any machine.
ghost use Rattle.std.specs.Prelude.{◌≡◌, MatchResult};
ghost use Rattle.machine.specs.Rules.{run, answers};

use crate::outcome::Outcome;
use crate::rule::Machine;
use command::Command;
use std::alloc::{AllocError, Global};

// Applies the commands in turn.
pub fn run_all<M: Machine>(machine: &mut M, commands: &[Command])
    ensures after { M.means machine.new ≡ run M.rule (M.means machine.old) commands.now }
    ensures bays { M.rule.bays (M.means machine.new) ≡ M.rule.bays (M.means machine.old) }
{
    for command in commands {
        machine.apply(*command);
    }
}

// Applies the commands in turn, and gives the pairs that answer them. Without memory for those, none is applied.
pub fn answer_all<M: Machine>(
    heap: Global,
    machine: &mut M,
    commands: &[Command],
) -> Result<Vec<(Outcome, u32)>, AllocError>
    ensures after { MatchResult result (λ _. M.means machine.new ≡ run M.rule (M.means machine.old) commands.now) (λ _. machine.new ≡ machine.old) }
    ensures answers { MatchResult result (λ v. v.items ≡ answers M.rule (M.means machine.old) commands.now) (λ _. machine.new ≡ machine.old) }
{
    let mut pairs = Vec::with_capacity(heap, commands.len())?;
    // No `map` with `collect`: room is taken before the first command, so that none is applied where there is too little memory.
    for command in commands {
        pairs.push_reserved(machine.apply(*command));
    }
    Ok(pairs)
}

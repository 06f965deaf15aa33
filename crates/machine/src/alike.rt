// Machines of one rule answer alike.
ghost use Rattle.std.specs.Prelude.{◌≡◌, ◌↔◌, [], IfOk, IsTrue};
ghost use Rattle.machine.specs.Catalogues.{catalogue};
ghost use Rattle.machine.specs.OneRules.{OneRule, AnswerAlike, Itself, Layered};
ghost use Rattle.machine.specs.Onces.{once};
ghost use Rattle.machine.specs.Rules.{run, answers};

use crate::catalogue::TableCatalogue;
use crate::list::ListCatalogue;
use crate::once::Once;
use crate::rule::Machine;
use command::Command;
use std::alloc::{AllocError, Global};

// Applies the commands in turn to both, and tells whether the two gave equal pairs at equal places.
pub fn answer_alike<M: Machine, N: Machine>(
    one: &mut M,
    other: &mut N,
    commands: &[Command],
) -> bool
    ensures one { M.Machine.means one.new ≡ run M.Machine.rule (M.Machine.means one.old) commands.now }
    ensures other { N.Machine.means other.new ≡ run N.Machine.rule (N.Machine.means other.old) commands.now }
    ensures told { IsTrue result ↔ (answers M.Machine.rule (M.Machine.means one.old) commands.now ≡ answers N.Machine.rule (N.Machine.means other.old) commands.now) }
    ensures law { AnswerAlike M.Machine.rule N.Machine.rule }
    ensures itself { Itself M.Machine.rule }
    ensures layered { Layered M.Machine.rule N.Machine.rule }
    ensures layers { AnswerAlike (once M.Machine.rule) (once N.Machine.rule) }
{
    // no `all`, which would stop at the first two that differ: both machines are to get every command
    let mut alike = true;
    for command in commands {
        alike &= one.apply(*command) == other.apply(*command);
    }
    alike
}

// The same of the two under a new `Once` each.
pub fn once_alike<M: Machine + Drop, N: Machine + Drop>(
    heap: Global,
    one: M,
    other: N,
    commands: &[Command],
) -> Result<bool, AllocError>
    ensures told { IfOk result (λ b. IsTrue b ↔ (answers (once M.Machine.rule) (M.Machine.means one, []) commands.now ≡ answers (once N.Machine.rule) (N.Machine.means other, []) commands.now)) }
{
    let mut one = Once::new(heap, one)?;
    let mut other = Once::new(heap, other)?;
    Ok(answer_alike(&mut one, &mut other, commands))
}

// The same of a new catalogue of each make: always true, since both follow the one rule `catalogue`.
pub fn makes_alike(heap: Global, commands: &[Command]) -> Result<bool, AllocError>
    ensures told { IfOk result IsTrue }
    ensures makes { OneRule ⟦<TableCatalogue as Machine>⟧.rule ⟦<ListCatalogue as Machine>⟧.rule }
    ensures named { OneRule ⟦<TableCatalogue as Machine>⟧.rule catalogue × OneRule ⟦<ListCatalogue as Machine>⟧.rule catalogue }
{
    let mut table = TableCatalogue::new();
    let mut list = ListCatalogue::new(heap)?;
    Ok(answer_alike(&mut table, &mut list, commands))
}

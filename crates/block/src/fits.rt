// Which words go together. A rule between two words is judged at the higher one. Words are numbers here, since what they stand for is known
// only once they fit: a value kind is 0 for nothing, 1 for a no-op and 2 for a command, a report 0 for empty, 1 for a vote and 2 for accepted.
ghost use Rattle.std.specs.Prelude.{◌≡◌, ◌<◌};
ghost use Rattle.block.specs.Fits.{to_fits, ballot_fits, value_fits, dependency_fits, report_fits, accept_fits, fits};
ghost use Rattle.block.specs.Verdicts.{misfit_fault, unless_fault};

use crate::fault::Fault;
use crate::message::Kind;
use crate::place::*;

fn to_fits(kind: Kind, to: u32) -> bool
    ensures { result ≡ to_fits kind to }
{
    match kind {
        Kind::FastAccept | Kind::Accept | Kind::Prepare => to == 255,
        Kind::Commit => true,
        _ => to != 255,
    }
}

fn ballot_fits(kind: Kind, ballot: u32) -> bool
    ensures { result ≡ ballot_fits kind ballot }
{
    match kind {
        Kind::FastAccept | Kind::FastAcceptOk | Kind::FastAcceptReply | Kind::Commit => ballot == 0,
        Kind::Accept | Kind::AcceptOk => true,
        Kind::Prepare | Kind::PrepareOk | Kind::Reject => ballot >= 8,
    }
}

// In a PrepareOk the value kind is held against the report, which is the higher word.
fn value_fits(kind: Kind, value_kind: u32) -> bool
    ensures { result ≡ value_fits kind value_kind }
{
    match kind {
        Kind::FastAccept => value_kind == 2,
        Kind::Accept | Kind::Commit => value_kind != 0,
        Kind::PrepareOk => true,
        _ => value_kind == 0,
    }
}

fn dependency_fits(kind: Kind, value_kind: u32, dependency: u32) -> bool
    ensures { result ≡ dependency_fits kind value_kind dependency }
{
    match kind {
        _ if value_kind == 2 => true,
        Kind::FastAcceptReply => dependency != 0,
        _ => dependency == 0,
    }
}

fn report_fits(kind: Kind, value_kind: u32, report: u32) -> bool
    ensures { result ≡ report_fits kind value_kind report }
{
    match kind {
        Kind::PrepareOk => match report {
            0 => value_kind == 0,
            1 => value_kind == 2,
            _ => value_kind != 0,
        },
        _ => report == 0,
    }
}

fn accept_fits(ballot: u32, report: u32, accept_ballot: u32) -> bool
    ensures { result ≡ accept_fits ballot report accept_ballot }
{
    if report == 2 {
        accept_ballot < ballot
    } else {
        accept_ballot == 0
    }
}

// Whether the word in that place fits the words below it.
pub(crate) fn word_fits(words: &[u32; 15], place: usize) -> bool
    requires { place < 15 }
    ensures { result ≡ fits words.now place }
{
    let kind = Kind::of_number(words[KIND]);
    let value_kind = words[VALUE_KIND];
    let word = words[place];
    match place {
        TO => to_fits(kind, word),
        BALLOT => ballot_fits(kind, word),
        VALUE_KIND => value_fits(kind, word),
        CLIENT | NUMBER => (value_kind == 2) == (word != 0),
        OPERATION | BAY | AMOUNT => value_kind == 2 || word == 0,
        DEPENDENCY => dependency_fits(kind, value_kind, word),
        REPORT => report_fits(kind, value_kind, word),
        ACCEPT_BALLOT => accept_fits(words[BALLOT], words[REPORT], word),
        _ => true,
    }
}

// Refuses the lowest word that does not fit the words below it. A loop with
// `return`, by place, since a word is judged with those below it.
pub(crate) fn check_fits(words: &[u32; 15]) -> Result<(), Fault>
    ensures { result ≡ unless_fault (misfit_fault words.now) tt }
{
    for place in 0..WORDS {
        if !word_fits(words, place) {
            return Err(Fault::Misfit(place));
        }
    }
    Ok(())
}

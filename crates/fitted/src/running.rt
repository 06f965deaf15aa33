// A card runs what was agreed, one entry at a time.
ghost use Rattle.std.specs.Prelude.{◌≡◌, ◌<◌, true};
ghost use Rattle.entry.specs.Entries.{is_committed};
ghost use Rattle.fitted.specs.declared.run.Next.TheVariants as next;
ghost use Rattle.fitted.specs.Meanings.{meaning_of};
ghost use Rattle.fitted.specs.Nexts.{log_number, last_in, ahead, is_ready, awaited_in, awaited, next as next_of};
ghost use Rattle.fitted.specs.Runs.{past_in, running, passing, ran};

use crate::fitting::{Card, Passed};
use crate::run::{Log, Next, Place, Run};
use block::Value;
use card::Replica;
use command::Command;
use entry::Entry;
use machine::{Machine, Outcome, Plain};

const LAST: u32 = 128;

impl Passed {
    // The last entry passed of a log, 0 for none.
    fn last(self, log: Log) -> u32
        ensures { result ≡ last_in log self }
    {
        match log {
            Log::Pilot => self.pilot,
            Log::Copilot => self.copilot,
        }
    }

    // One entry further in a log.
    fn past(self, log: Log) -> Passed
        requires { last_in log self < 128 }
        ensures { result ≡ past_in log self }
    {
        let entry = self.last(log) + 1;
        match log {
            Log::Pilot => Passed {
                pilot: entry,
                ..self
            },
            Log::Copilot => Passed {
                copilot: entry,
                ..self
            },
        }
    }
}

// The entry of a log after the last one passed. Past the end of the log there is none, and none is ever committed there.
fn ahead(replica: &Replica, log: Log, passed: Passed) -> Entry
    ensures value { result ≡ ahead replica.now (log_number log) (last_in log passed) }
    ensures room { is_committed result.state ≡ true → last_in log passed < 128 }
{
    let last = passed.last(log);
    if last >= LAST {
        return Entry::empty();
    }
    replica.logs[log as usize][last as usize]
}

// Committed, and nothing that it depends on is still ahead in the other log.
fn is_ready(entry: &Entry, other: u32) -> bool
    ensures { result ≡ is_ready entry.now other }
{
    entry.is_committed()
        && match entry.value {
            Value::Nothing | Value::Noop => true,
            Value::Command(_) => entry.dependency <= other,
        }
}

// The next entry of a log, if it is there and not committed yet.
fn awaited_in(log: Log, passed: Passed, next: &Entry) -> Option<Place>
    ensures { result ≡ awaited_in log passed next.now }
{
    let last = passed.last(log);
    if last < LAST && !next.is_committed() {
        let log = u32::from(log);
        Some(Place {
            log,
            entry: last + 1,
        })
    } else {
        None
    }
}

// The uncommitted entry that is waited for, the pilot's before the copilot's.
fn awaited(passed: Passed, pilot: &Entry, copilot: &Entry) -> Option<Place>
    ensures { result ≡ awaited passed pilot.now copilot.now }
{
    awaited_in(Log::Pilot, passed, pilot).or(awaited_in(Log::Copilot, passed, copilot))
}

// What is passed next: an entry that is ready, the pilot's before the copilot's; the pilot's where both are committed and each
// waits for the other. What is passed stands in its log, so the position there can rise by one.
fn next(replica: &Replica, passed: Passed) -> Next
    ensures value { result ≡ next_of replica.now passed }
    ensures room { elim result [ next.Passes log v ↦ last_in log passed < 128 | next.Waits e ↦ Unit {0} ] }
{
    let pilot = ahead(replica, Log::Pilot, passed);
    let copilot = ahead(replica, Log::Copilot, passed);
    if is_ready(&pilot, passed.copilot) {
        Next::Passes(Log::Pilot, pilot.value)
    } else if is_ready(&copilot, passed.pilot) {
        Next::Passes(Log::Copilot, copilot.value)
    } else if pilot.is_committed() && copilot.is_committed() {
        Next::Passes(Log::Pilot, pilot.value)
    } else {
        Next::Waits(awaited(passed, &pilot, &copilot))
    }
}

impl<M: Plain> Card<M> {
    // Applies a command to the machine, unless its identity has run or there is no place for it.
    fn run_command(&mut self, passed: Passed, command: Command) -> Run
        ensures { (meaning_of M.Machine.rule M.Machine.means self.new, result) ≡ running M.Machine.rule (meaning_of M.Machine.rule M.Machine.means self.old) passed command }
    {
        match self.machine.apply(command) {
            (Outcome::NoPlace, _) => Run::NoPlace,
            (Outcome::Repeat, _) => {
                self.passed = passed;
                Run::Repeat
            }
            (outcome, value) => {
                self.passed = passed;
                Run::Ran {
                    command,
                    outcome,
                    value,
                }
            }
        }
    }

    // Past an entry with a value, to the positions given.
    fn pass(&mut self, passed: Passed, value: Value) -> Run
        ensures { (meaning_of M.Machine.rule M.Machine.means self.new, result) ≡ passing M.Machine.rule (meaning_of M.Machine.rule M.Machine.means self.old) passed value }
    {
        match value {
            Value::Nothing | Value::Noop => {
                self.passed = passed;
                Run::Noop
            }
            Value::Command(command) => self.run_command(passed, command),
        }
    }

    // Passes one entry, if one may be passed.
    pub fn run(&mut self) -> Run
        ensures state { meaning_of M.Machine.rule M.Machine.means self.new ≡ (ran M.Machine.rule (meaning_of M.Machine.rule M.Machine.means self.old)).0 }
        ensures answer { result ≡ (ran M.Machine.rule (meaning_of M.Machine.rule M.Machine.means self.old)).1 }
    {
        match next(&self.replica, self.passed) {
            Next::Passes(log, value) => self.pass(self.passed.past(log), value),
            Next::Waits(place) => Run::Waits(place),
        }
    }
}

// A message in words.
ghost use Rattle.std.specs.Prelude.{◌≡◌, Some};
ghost use Rattle.inspect.specs.Texts.{kind_name, destination_text, ballot_text, value_text, content_text, message_text};

use block::{Destination, Kind, Message, Report, Value, holder, round};
use std::fmt;

// Prints a part of a message in words.
#[derive(Drop)]
pub(crate) struct InWords<T>(pub(crate) T);

impl fmt::Display for InWords<Kind> {
    ghost output = { λ k. Some (kind_name k.0) };

    fn fmt<W: fmt::Write>(&self, f: &mut fmt::Formatter<W>) -> fmt::Result {
        f.write_str(match self.0 {
            Kind::FastAccept => "FastAccept",
            Kind::FastAcceptOk => "FastAcceptOk",
            Kind::FastAcceptReply => "FastAcceptReply",
            Kind::Accept => "Accept",
            Kind::AcceptOk => "AcceptOk",
            Kind::Commit => "Commit",
            Kind::Prepare => "Prepare",
            Kind::PrepareOk => "PrepareOk",
            Kind::Reject => "Reject",
        })
    }
}

impl fmt::Display for InWords<Destination> {
    ghost output = { λ d. Some (destination_text d.0) };

    fn fmt<W: fmt::Write>(&self, f: &mut fmt::Formatter<W>) -> fmt::Result {
        match self.0 {
            Destination::All => write!(f, "all"),
            Destination::Seat(seat) => write!(f, "seat {seat}"),
        }
    }
}

// A ballot as its round and the seat that holds it.
#[derive(Drop)]
struct Ballot(u32);

impl fmt::Display for Ballot {
    ghost output = { λ b. Some (ballot_text b.0) };

    fn fmt<W: fmt::Write>(&self, f: &mut fmt::Formatter<W>) -> fmt::Result {
        if self.0 == 0 {
            return write!(f, "0");
        }
        let round = round(self.0);
        let seat = holder(self.0);
        write!(f, "round {round} of seat {seat}")
    }
}

impl fmt::Display for InWords<Value> {
    ghost output = { λ v. Some (value_text v.0) };

    fn fmt<W: fmt::Write>(&self, f: &mut fmt::Formatter<W>) -> fmt::Result {
        match self.0 {
            Value::Nothing => write!(f, "no value"),
            Value::Noop => write!(f, "no-op"),
            Value::Command(command) => write!(
                f,
                "command {} of client {}: operation {}, bay {}, amount {}",
                command.identity.number,
                command.identity.client,
                command.operation,
                command.bay,
                command.amount
            ),
        }
    }
}

// What a message says beyond its ballot: the parts that its kind uses.
#[derive(Drop)]
struct Content(Message);

impl fmt::Display for Content {
    ghost output = { λ c. Some (content_text c.0.kind c.0) };

    fn fmt<W: fmt::Write>(&self, f: &mut fmt::Formatter<W>) -> fmt::Result {
        let value = InWords(self.0.value);
        let dependency = self.0.dependency;
        match self.0.kind {
            Kind::FastAccept | Kind::Accept | Kind::Commit => {
                write!(f, ", {value}, dependency {dependency}")
            }
            Kind::FastAcceptReply => write!(f, ", dependency {dependency}"),
            Kind::PrepareOk => match self.0.report {
                Report::Empty => write!(f, ", report empty"),
                Report::Vote => write!(f, ", report vote, {value}, dependency {dependency}"),
                Report::Accepted(ballot) => {
                    let ballot = Ballot(ballot);
                    write!(
                        f,
                        ", report accepted at ballot {ballot}, {value}, dependency {dependency}"
                    )
                }
            },
            Kind::FastAcceptOk | Kind::AcceptOk | Kind::Prepare | Kind::Reject => Ok(()),
        }
    }
}

impl fmt::Display for InWords<Message> {
    ghost output = { λ m. Some (message_text m.0) };

    fn fmt<W: fmt::Write>(&self, f: &mut fmt::Formatter<W>) -> fmt::Result {
        let message = self.0;
        let kind = InWords(message.kind);
        let to = InWords(message.to);
        let ballot = Ballot(message.ballot);
        let content = Content(message);
        let Message {
            from,
            log,
            entry,
            ..
        } = message;
        write!(
            f,
            "{kind} from seat {from} to {to}, {log}.{entry}, ballot {ballot}{content}"
        )
    }
}

// What a client asks of the record, and by what it is told from every other request.
#![tactic(auto)]

// Who asked, and which of that client's requests it is. No two commands of one client share a number.
#[derive(Clone, Copy, Default, PartialEq, Eq, Debug)]
pub struct Identity {
    pub client: u32,
    pub number: u32,
}

// One request: an operation on a bay, with an amount. A state machine gives the three their meaning.
#[derive(Clone, Copy, Default, PartialEq, Eq, Debug)]
pub struct Command {
    pub identity: Identity,
    pub operation: u32,
    pub bay: u32,
    pub amount: u32,
}

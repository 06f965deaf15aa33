// What the rules of one card mean, in words that need no fold and no scan: the laws that the agreement of a cabinet rests on.
#![tactic(auto)]

ghost use Rattle.group.specs.Settlements.{AnswersSettle};
ghost use Rattle.group.specs.Choices.{ReportsChoose};
ghost use Rattle.group.specs.Scans.{ScansFind};
ghost use Rattle.group.specs.Ballots.{BallotsRise};
ghost use Rattle.group.specs.Turns.{DeliveriesTurn, ProposalsTurn, SettlingsTurn, TakeoversTurn};
ghost use Rattle.group.specs.Agreements.{GroupsAgree};
ghost use Rattle.group.specs.Places.{CardsBegin, EntriesKeepTheirPlaces, SeatsCount};

mod calls;

pub use calls::Call;

// A majority of the answers does not exceed the dependency that they settle on, and it is the smallest such answer.
pub fn answers_settle()
    ensures { AnswersSettle }
{}

// A takeover chooses what was accepted at the highest ballot, else what a majority may have voted for, else a no-op.
pub fn reports_choose()
    ensures { ReportsChoose }
{}

// The scans of a card's table find the highest entries, and every entry that blocks.
pub fn scans_find()
    ensures { ScansFind }
{}

// A takeover's ballot is the card's own, above the promise, and the smallest such.
pub fn ballots_rise()
    ensures { BallotsRise }
{}

// In a new card nothing has happened to any entry.
pub fn cards_begin()
    ensures { CardsBegin }
{}

// A write to one entry changes that entry and no other.
pub fn entries_keep_their_places()
    ensures { EntriesKeepTheirPlaces }
{}

// The seats that a list has set are the seats of the group that are set.
pub fn seats_count()
    ensures { SeatsCount }
{}

// Whatever a card makes of a message that was sent, it is a turn that the argument about whole groups allows.
pub fn deliveries_turn()
    ensures { DeliveriesTurn }
{}

// So is a proposal.
pub fn proposals_turn()
    ensures { ProposalsTurn }
{}

// So is settling on request.
pub fn settlings_turn()
    ensures { SettlingsTurn }
{}

// So is a takeover.
pub fn takeovers_turn()
    ensures { TakeoversTurn }
{}

// Whatever calls are made on the cards of a new group, in whatever order, with messages lost, late or repeated: no two cards hold an
// entry committed with different values or dependencies, now or at any two moments; of two commands in different logs one waits for
// the other; and every committed command was proposed, or was noted as proposed in the new group.
pub fn groups_agree()
    ensures { GroupsAgree }
{}

// The cards of a group never disagree. Each function does nothing, and its contract is one law.
#![tactic(auto)]

ghost use Rattle.column.specs.Safe.{GroupSafe, SomeCommits};
ghost use Rattle.column.specs.Running.{GoesOn};
ghost use Rattle.column.specs.Cards.{CardsSafe};

// Of every group that comes of the moves of its cards: one content for each entry, compatible commands, one order.
pub fn groups_are_safe()
    ensures { GroupSafe }
{}

// The same of a list of cards, whatever calls are made on them.
pub fn cards_are_safe()
    ensures { CardsSafe }
{}

// What a card runs by the rule of what comes next is a walk.
pub fn runs_are_walks()
    ensures { GoesOn }
{}

// The moves do let commands be committed.
pub fn some_group_commits()
    ensures { SomeCommits }
{}

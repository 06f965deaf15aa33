// The laws that agreement rests on. Each function does nothing, and its contract is one law.
#![tactic(auto)]

ghost use Rattle.agreement.specs.Quorums.{QuorumsOverlap};
ghost use Rattle.agreement.specs.Compatibility.{OneWaits};
ghost use Rattle.agreement.specs.Walks.{WalksAgree, WalksMerge, FirstsAgree, FirstsDistinct};
ghost use Rattle.agreement.specs.Histories.{OneValue, OneValueAllowed, HistoriesSettled, HistoriesWalked, SomeHistory};

// Among 2f + 1 seats, any two sets of f + 1 share a seat.
pub fn quorums_overlap()
    ensures { QuorumsOverlap }
{}

// Ballots that keep their rules decide at most one value of an entry, and so does every history that the rules allow.
pub fn one_value_per_entry()
    ensures one_value { OneValue }
    ensures one_value_allowed { OneValueAllowed }
{}

// Of two dependencies that majorities support, one of each log, one reaches the other's entry.
pub fn one_of_two_waits()
    ensures { OneWaits }
{}

// Of any two walks through two compatible logs one list begins the other.
pub fn walks_agree()
    ensures { WalksAgree }
{}

// What is committed alone determines where each command stands in a walk's list.
pub fn walks_merge()
    ensures { WalksMerge }
{}

// Keeping only the first of each identity respects that.
pub fn firsts_agree()
    ensures { FirstsAgree }
{}

// And it leaves no identity twice.
pub fn firsts_are_distinct()
    ensures { FirstsDistinct }
{}

// Every history that the rules allow decides each place in one way and compatible commands, all of them proposed.
pub fn histories_settle()
    ensures { HistoriesSettled }
{}

// And of any two walks through what it decides one list begins the other.
pub fn histories_have_one_order()
    ensures { HistoriesWalked }
{}

// The rules do let a command be decided and run.
pub fn some_history_decides()
    ensures { SomeHistory }
{}

// Where each word stands in a block. Constants and no enum: they index the words, and a `Fault` names one place more. That
// a place is below 15 stands in three contracts and is no type, which each of these would have to be turned into.
pub(crate) const KIND: usize = 0;

pub(crate) const FROM: usize = 1;

pub(crate) const TO: usize = 2;

pub(crate) const LOG: usize = 3;

pub(crate) const ENTRY: usize = 4;

pub(crate) const BALLOT: usize = 5;

pub(crate) const VALUE_KIND: usize = 6;

pub(crate) const CLIENT: usize = 7;

pub(crate) const NUMBER: usize = 8;

pub(crate) const OPERATION: usize = 9;

pub(crate) const BAY: usize = 10;

pub(crate) const AMOUNT: usize = 11;

pub(crate) const DEPENDENCY: usize = 12;

pub(crate) const REPORT: usize = 13;

pub(crate) const ACCEPT_BALLOT: usize = 14;

// How many words a block has. A byte after them that is not zero counts as a word of this number.
pub(crate) const WORDS: usize = 15;

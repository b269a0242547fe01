// Tables of rows of one width in words that the caller lends: the rows in key order at the front, then zeros.
//
// A row's key is its first word, or its first four words as one number, the highest word first. The code over such tables stands in
// `row_search`, `row_checks` and `row_moves`.
#![tactic(auto)]

// A key of four words, the highest first: so keys compare as the numbers that they spell.
#[derive(Clone, Copy, PartialEq, Eq, PartialOrd, Ord)]
pub struct Wide(pub u64, pub u64, pub u64, pub u64);

// Allocate, free, copy in, fill and lend: on a record that is lent, and by value, where the record goes in and comes back beside the answer. `reshape` and
// `takeback` have the other calls, over what is shared here.
#![tactic(auto)]

pub mod allocate;
pub mod block;
pub mod bytes;
pub mod fast;
pub mod free;
pub mod lend;
pub mod refusals;
pub mod write;

use arena::change::Change;
use arena::{Arena, Refusal};

// What the inner form of a call answers, and what it changes in the record, which stays with its holder.
#[derive(Clone, Copy)]
pub struct Answered<T> {
    pub answer: Result<T, Refusal>,
    pub change: Change,
}

// What allocate with a token records: the chunk count and the current pointer before it; by default 0 and 0, as a refused one says.
#[derive(Clone, Copy, Default)]
pub struct Token {
    pub count: usize,
    pub pointer: usize,
}

#[derive(Clone, Copy)]
pub struct TokenPlaced {
    pub answer: Result<usize, Refusal>,
    pub token: Token,
    pub change: Change,
}

#[derive(Clone, Copy)]
pub struct TokenAllocation {
    pub answer: Result<usize, Refusal>,
    pub token: Token,
    pub arena: Arena,
}

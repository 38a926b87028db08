// The calls for C and Rust: the arena's record is lent and changed in place, and what a call answers is plain numbers.
// The numbers for refusals, the zeros where there is nothing and an entry for each call are the C interface.
#![tactic(auto)]

pub mod allocate;
pub mod answers;
pub mod create;
pub mod free;
pub mod grow;
pub mod lend;
pub mod limit;
pub mod reset;
pub mod resize;
pub mod shrink;
pub mod tokens;
pub mod walk;
pub mod write;

// A refusal's number, or 0 where the call was not refused; and the block's offset, or 0 where there is none.
#[repr(C)]
#[derive(Clone, Copy)]
pub struct Said {
    pub refusal: usize,
    pub offset: usize,
}

// The same, with what the block's token records.
#[repr(C)]
#[derive(Clone, Copy)]
pub struct SaidToken {
    pub refusal: usize,
    pub offset: usize,
    pub count: usize,
    pub pointer: usize,
}

// A refusal's number or 0, and the part of the region that is lent: 0 and 0 where it is refused.
#[repr(C)]
#[derive(Clone, Copy)]
pub struct SaidPart {
    pub refusal: usize,
    pub offset: usize,
    pub length: usize,
}

// The same of a step of the walk, with the number of parts that are left, this one counted: 0 after the last.
#[repr(C)]
#[derive(Clone, Copy, Default)]
pub struct SaidStep {
    pub refusal: usize,
    pub left: usize,
    pub offset: usize,
    pub length: usize,
}

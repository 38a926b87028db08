// The arena's record, and the rules of document 01 beneath every call: soundness, sizing, placing, the ladder, creation, limits, reset.
#![tactic(auto)]

pub mod change;
pub mod creation;
pub mod ladder;
pub mod layout;
pub mod lent;
mod limit;
pub mod placing;
pub mod reset;
pub mod sizing;
pub mod sound;

ghost use Rattle.std.specs.Prelude.{◌≡◌, ◌≤◌};
ghost use Rattle.arena.specs.Refusals.{number_of};

// Everything of the record but its table. The limit is two numbers, so that no limit has one form: both zero.
// A flag beside its number, and no Option: a host's memory holds these five numbers (the C interface).
#[repr(C)]
#[derive(Clone, Copy, PartialEq, Eq)]
pub struct Head {
    pub region: usize,
    pub minimum: usize,
    pub limited: usize,
    pub limit: usize,
    pub count: usize,
}

// The table of held chunks, a column for each number, in the order taken; the last held one is current.
// Plain numbers only, so that any bytes that a host lends are some record.
// Columns, and no array of chunks: a host's memory holds them so (the C interface).
#[repr(C)]
#[derive(Clone, Copy, PartialEq, Eq)]
pub struct Arena {
    pub head: Head,
    pub starts: [usize; 32],
    pub sizes: [usize; 32],
    pub pointers: [usize; 32],
}

// One chunk, by value: its usable bytes are the size bytes from start, and those from pointer on are given out.
#[derive(Clone, Copy)]
pub struct Chunk {
    pub start: usize,
    pub size: usize,
    pub pointer: usize,
}

// Document 01's refusals, and their numbers.
#[derive(Clone, Copy, Debug, PartialEq, Eq)]
pub enum Refusal {
    State = 1,
    Region = 2,
    Size = 3,
    Align = 4,
    Block = 5,
    Direction = 6,
    Token = 7,
    Room = 8,
}

impl Refusal {
    pub fn number(self) -> usize
        ensures value { result ≡ number_of self }
        ensures bound { result ≤ 8 }
    {
        self as usize
    }
}

// What a call answers, and the record after it.
#[derive(Clone, Copy)]
pub struct Outcome<T> {
    pub answer: Result<T, Refusal>,
    pub arena: Arena,
}

impl<T> Outcome<T> {
    // The record goes back as it came.
    pub fn refused(arena: Arena, r: Refusal) -> Self
        ensures { result ≡ record { answer = Err r; arena = arena } }
    {
        Outcome {
            answer: Err(r),
            arena,
        }
    }
}

impl Arena {
    // The Rust footer's place after a chunk's end: reserved, never read or written.
    pub const FOOTER: usize = 48;
    // The footer and the 16 bytes that an allocator keeps beside a chunk.
    pub const OVERHEAD: usize = 64;
    // A first chunk of 512 bytes, less the overhead.
    pub const DEFAULT_SIZE: usize = 448;

    pub const PAGE: usize = 4096;
    // Starts and usable sizes are multiples of it.
    pub const STEP: usize = 16;

    pub const PLACES: usize = 32;
    // The largest region and the largest size.
    pub const MOST: usize = 1073741824;

    pub const LARGEST_ALIGN: usize = 4096;

    pub const LARGEST_MINIMUM: usize = 16;
}

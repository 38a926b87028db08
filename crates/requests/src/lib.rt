// Document 01's request file: its records read and run, and the lines that they print.
#![tactic(auto)]

pub mod header;
mod kind;
pub mod machine;
pub mod print;
pub mod read;
pub mod run;
pub mod window;

use arena::Refusal;

// A request, with its record's fields in their order.
#[derive(Clone, Copy)]
pub enum Request {
    Allocate {
        size: usize,
        align: usize,
    },
    Free {
        offset: usize,
        size: usize,
        align: usize,
    },
    Grow {
        offset: usize,
        old_size: usize,
        old_align: usize,
        new_size: usize,
        new_align: usize,
    },
    Shrink {
        offset: usize,
        old_size: usize,
        old_align: usize,
        new_size: usize,
        new_align: usize,
    },
    Reset,
    SetLimit {
        limit: usize,
    },
    NoLimit,
    AllocateWithToken {
        size: usize,
        align: usize,
    },
    Cancel {
        offset: usize,
        count: usize,
        pointer: usize,
    },
    Resize {
        offset: usize,
        old_size: usize,
        align: usize,
        new_size: usize,
    },
}

// A whole record: the bytes that it takes, and its request.
#[derive(Clone, Copy)]
pub struct Record {
    pub size: usize,
    pub request: Request,
}

// How a run ends for want of a record: the bytes end after one, or inside one, or a whole one says no request.
#[derive(Clone, Copy)]
pub enum Ending {
    Complete,
    CutOff,
    BadRecord,
}

// What stands at the front of the bytes.
pub type Front = Result<Record, Ending>;

// What a line says of a request: an offset, that it is done, or the refusal.
pub type Reply = Result<Option<usize>, Refusal>;

// Whether the header is still to come, requests are read, or a bad header or record has stopped the run.
#[derive(Clone, Copy)]
pub enum Stage {
    Heading,
    Running,
    Stopped,
}

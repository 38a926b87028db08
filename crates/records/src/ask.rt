// The calls that can answer STATE. Each names the block of one byte at the current pointer where it names one.
use arena::{Arena, Outcome};
use calls::{Token, TokenAllocation};
use std::fmt;
use trial::number::number_or_0;
use trial::row::current_pointer;

#[derive(Clone, Copy)]
pub enum Call {
    Allocate,
    AllocateWithToken,
    CopyIn,
    Fill,
    Grow,
    GrowZeroed,
    Shrink,
    Resize,
    Free,
    Cancel,
    Reset,
    SetLimit,
    NoLimit,
    Lend,
    LendAnswer,
    Walk,
}

pub const CALLS: [Call; 16] = [
    Call::Allocate,
    Call::AllocateWithToken,
    Call::CopyIn,
    Call::Fill,
    Call::Grow,
    Call::GrowZeroed,
    Call::Shrink,
    Call::Resize,
    Call::Free,
    Call::Cancel,
    Call::Reset,
    Call::SetLimit,
    Call::NoLimit,
    Call::Lend,
    Call::LendAnswer,
    Call::Walk,
];

impl fmt::Display for Call {
    fn fmt<W: fmt::Write>(&self, f: &mut fmt::Formatter<W>) -> fmt::Result {
        f.write_str(match self {
            Call::Allocate => "allocate",
            Call::AllocateWithToken => "allocate with a token",
            Call::CopyIn => "copy in",
            Call::Fill => "fill",
            Call::Grow => "grow",
            Call::GrowZeroed => "grow zeroed",
            Call::Shrink => "shrink",
            Call::Resize => "resize",
            Call::Free => "free",
            Call::Cancel => "cancel",
            Call::Reset => "reset",
            Call::SetLimit => "set limit",
            Call::NoLimit => "no limit",
            Call::Lend => "lend",
            Call::LendAnswer => "the answer beside lend",
            Call::Walk => "walk",
        })
    }
}

// The record handed back, and a refusal's number or 0: the number, since that is what a step of the walk says, which is C's.
#[derive(Clone, Copy)]
pub struct Asked {
    pub refusal: usize,
    pub arena: Arena,
}

impl<T: Copy> From<Outcome<T>> for Asked {
    fn from(got: Outcome<T>) -> Asked {
        Asked {
            refusal: number_or_0(got.answer),
            arena: got.arena,
        }
    }
}

impl From<TokenAllocation> for Asked {
    fn from(got: TokenAllocation) -> Asked {
        Asked {
            refusal: number_or_0(got.answer),
            arena: got.arena,
        }
    }
}

fn cancel(a: Arena, p: usize) -> Asked {
    let token = Token {
        count: a.head.count,
        pointer: p,
    };
    Asked::from(takeback::tokens::cancel(a, p, token))
}

// This and the next two hand no record back.
fn lend_answer(a: Arena, region: &[u8], p: usize) -> Asked {
    Asked {
        refusal: number_or_0(calls::lend::lend_answer(a, region, p, 1, 1)),
        arena: a,
    }
}

// Nothing is lent where the call beside it says a number.
fn lend(a: Arena, region: &mut [u8], p: usize) -> Asked {
    let mut asked = lend_answer(a, region, p);
    if !calls::lend::lend(a, region, p, 1, 1).is_empty() {
        asked.refusal = 0;
    }
    asked
}

fn walk(a: Arena, region: &[u8]) -> Asked {
    Asked {
        refusal: host::walk::step_at(region, a, 0).refusal,
        arena: a,
    }
}

pub fn ask(call: Call, a: Arena, region: &mut [u8]) -> Asked {
    let p = current_pointer(&a).unwrap_or(0);
    match call {
        Call::Allocate => Asked::from(calls::allocate::allocate(a, region, 1, 1)),
        Call::AllocateWithToken => Asked::from(takeback::tokens::allocate_with_token(
            a, region, 1, 1,
        )),
        Call::CopyIn => Asked::from(calls::write::copy_in(a, region, b"x", 1)),
        Call::Fill => Asked::from(calls::write::fill_in(a, region, 1, 1, b'x')),
        Call::Grow => Asked::from(reshape::grow::grow(a, region, p, 1, 1, 2, 1)),
        Call::GrowZeroed => Asked::from(reshape::grow::grow_zeroed(a, region, p, 1, 1, 2, 1)),
        Call::Shrink => Asked::from(reshape::shrink::shrink(a, region, p, 1, 1, 0, 1)),
        Call::Resize => Asked::from(reshape::resize::resize(a, region, p, 1, 1, 2)),
        Call::Free => Asked::from(calls::free::free(a, p, 1, 1)),
        Call::Cancel => cancel(a, p),
        Call::Reset => Asked::from(a.reset()),
        Call::SetLimit => Asked::from(a.set_allocation_limit(448)),
        Call::NoLimit => Asked::from(a.no_allocation_limit()),
        Call::Lend => lend(a, region, p),
        Call::LendAnswer => lend_answer(a, region, p),
        Call::Walk => walk(a, region),
    }
}

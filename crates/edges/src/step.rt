// The steps that a case has: each call of document 01, what shows a store, and what changes it between calls.
use crate::store::{Planted, Store};
use arena::{Arena, Outcome, Refusal};
use calls::{Token, TokenAllocation};
use std::fmt;
use trial::row::Plant;

// The numbers have no names, so that a case is a line.
#[derive(Clone, Copy)]
pub enum Step {
    // Region, minimum, capacity.
    Create(usize, usize, usize),
    // Size, align.
    Allocate(usize, usize),
    AllocateWithToken(usize, usize),
    // The bytes, align.
    CopyIn(&'static str, usize),
    // Size, align.
    Fill(usize, usize),
    // Offset, old size, old align, new size, new align.
    Grow(usize, usize, usize, usize, usize),
    GrowZeroed(usize, usize, usize, usize, usize),
    Shrink(usize, usize, usize, usize, usize),
    // Offset, old size, align, new size.
    Resize(usize, usize, usize, usize),
    // Offset, size, align.
    Free(usize, usize, usize),
    Lend(usize, usize, usize),
    // Offset, the token's count and pointer.
    Cancel(usize, usize, usize),
    Reset,
    Limit(usize),
    NoLimit,

    // The whole record is shown, or the bytes from an offset to another.
    Record,
    Bytes(usize, usize),

    // Nothing is printed. So many bytes are lent from here on.
    Lent(usize),
    // The record is unsound: a chunk more than the table has places for, or an unused place that isn't zero.
    Overcounted,
    Littered,
    // 31 chunks of 448 are taken, all given out.
    ManyChunks,

    // A change is planted after the next call, or before the write of the next lend.
    Plant(Plant),
    PlantBeforeTheWrite,
}

// What fills a block, and what its owner writes on it.
const VALUE: u8 = b'x';

impl fmt::Display for Step {
    fn fmt<W: fmt::Write>(&self, f: &mut fmt::Formatter<W>) -> fmt::Result {
        match *self {
            Step::Create(n, minimum, capacity) => write!(
                f,
                "create {n} minimum {minimum} capacity {capacity}"
            ),
            Step::Allocate(n, align) => write!(f, "allocate {n} align {align}"),
            Step::AllocateWithToken(n, align) => write!(f, "token allocate {n} align {align}"),
            Step::CopyIn(source, align) => write!(f, "copy in {source} align {align}"),
            Step::Fill(n, align) => write!(f, "fill {n} align {align}"),
            Step::Grow(at, n, align, m, other) => write!(
                f,
                "grow {at} size {n} align {align} to size {m} align {other}"
            ),
            Step::GrowZeroed(at, n, align, m, other) => write!(
                f,
                "grow zeroed {at} size {n} align {align} to size {m} align {other}"
            ),
            Step::Shrink(at, n, align, m, other) => write!(
                f,
                "shrink {at} size {n} align {align} to size {m} align {other}"
            ),
            Step::Resize(at, n, align, m) => write!(
                f,
                "resize {at} size {n} align {align} to size {m}"
            ),
            Step::Free(at, n, align) => write!(f, "free {at} size {n} align {align}"),
            Step::Lend(at, n, align) => write!(f, "lend {at} size {n} align {align}"),
            Step::Cancel(at, count, pointer) => write!(f, "cancel {at} token {count} {pointer}"),
            Step::Reset => write!(f, "reset"),
            Step::Limit(n) => write!(f, "limit {n}"),
            Step::NoLimit => write!(f, "no limit"),
            Step::Record => write!(f, "record"),
            Step::Bytes(from, to) => write!(f, "bytes {from} to {to}"),
            Step::Plant(Plant::Byte(at)) => write!(f, "planted: byte {at} after "),
            Step::Plant(Plant::Number(_)) => write!(f, "planted: a number of the record after "),
            Step::PlantBeforeTheWrite => write!(
                f,
                "planted: the block's first byte before the write of "
            ),
            Step::Lent(_) | Step::Overcounted | Step::Littered | Step::ManyChunks => Ok(()),
        }
    }
}

// What a call answered: the offset of a block that it gave out, or the refusal.
#[derive(Clone, Copy)]
pub struct Answered {
    pub answer: Result<Option<usize>, Refusal>,
    pub token: Option<Token>,
    // How many bytes were lent.
    pub lent: Option<usize>,
    // Of a served call that is lent bytes: the offset from which on it may write how many.
    pub written: Option<(usize, usize)>,
}

fn done(got: Outcome<()>, s: &mut Store) -> Answered {
    s.arena = got.arena;
    Answered {
        answer: got.answer.map(|()| None),
        token: None,
        lent: None,
        written: None,
    }
}

// It may write so many bytes from its block's offset on.
fn given(got: Outcome<usize>, size: usize, s: &mut Store) -> Answered {
    s.arena = got.arena;
    Answered {
        answer: got.answer.map(Some),
        token: None,
        lent: None,
        written: got.answer.ok().map(|offset| (offset, size)),
    }
}

fn given_with_token(got: TokenAllocation, s: &mut Store) -> Answered {
    let allocation = Outcome {
        answer: got.answer,
        arena: got.arena,
    };
    let mut answered = given(allocation, 0, s);
    answered.token = Some(got.token);
    answered
}

// What is lent is written on.
fn lend(s: &mut Store, offset: usize, size: usize, align: usize) -> Answered {
    let a = s.arena;
    let answer = calls::lend::lend_answer(a, s.region(), offset, size, align);
    let part = calls::lend::lend(a, s.region(), offset, size, align);
    part.fill(VALUE);
    Answered {
        answer: answer.map(|()| None),
        token: None,
        lent: Some(part.len()),
        written: answer.is_ok().then_some((offset, size)),
    }
}

// The limit leaves room for a chunk of 448 and for no larger one.
fn with_many_chunks(s: &Store) -> Arena {
    let mut a = s.arena;
    for i in 1..32 {
        a = a.set_allocation_limit(448 * i).arena;
        a = calls::allocate::allocate(a, &s.bytes, 448, 1).arena;
    }
    a
}

impl Step {
    // Whether it is a call that the region's bytes are lent to.
    pub fn is_lent(self) -> bool {
        !matches!(
            self,
            Step::Free(..) | Step::Cancel(..) | Step::Reset | Step::Limit(_) | Step::NoLimit
        )
    }

    // What it answers, where it is a call. What is none changes the store alone, or nothing.
    pub fn run(self, s: &mut Store) -> Option<Answered> {
        let a = s.arena;
        match self {
            Step::Create(n, minimum, capacity) => {
                *s = Store::blank();
                s.lent = n;
                Some(done(Arena::with_min_align_and_capacity(n, minimum, capacity), s))
            }
            Step::Allocate(n, align) => {
                let got = calls::allocate::allocate(a, s.region(), n, align);
                Some(given(got, 0, s))
            }
            Step::AllocateWithToken(n, align) => {
                let got = takeback::tokens::allocate_with_token(a, s.region(), n, align);
                Some(given_with_token(got, s))
            }
            Step::CopyIn(source, align) => {
                let got = calls::write::copy_in(a, s.region(), source.as_bytes(), align);
                Some(given(got, source.len(), s))
            }
            Step::Fill(n, align) => {
                let got = calls::write::fill_in(a, s.region(), n, align, VALUE);
                Some(given(got, n, s))
            }
            Step::Grow(at, n, align, new, new_align) => {
                let got = reshape::grow::grow(a, s.region(), at, n, align, new, new_align);
                Some(given(got, new, s))
            }
            Step::GrowZeroed(at, n, align, new, new_align) => {
                let got = reshape::grow::grow_zeroed(a, s.region(), at, n, align, new, new_align);
                Some(given(got, new, s))
            }
            Step::Shrink(at, n, align, new, new_align) => {
                let got = reshape::shrink::shrink(a, s.region(), at, n, align, new, new_align);
                Some(given(got, new, s))
            }
            Step::Resize(at, n, align, new) => {
                let got = reshape::resize::resize(a, s.region(), at, n, align, new);
                Some(given(got, new, s))
            }
            Step::Free(at, n, align) => Some(done(calls::free::free(a, at, n, align), s)),
            Step::Lend(at, n, align) => Some(lend(s, at, n, align)),
            Step::Cancel(at, count, pointer) => {
                let token = Token { count, pointer };
                Some(done(takeback::tokens::cancel(a, at, token), s))
            }
            Step::Reset => Some(done(a.reset(), s)),
            Step::Limit(n) => Some(done(a.set_allocation_limit(n), s)),
            Step::NoLimit => Some(done(a.no_allocation_limit(), s)),
            Step::Record | Step::Bytes(..) => None,
            Step::Lent(n) => {
                s.lent = n;
                None
            }
            Step::Overcounted => {
                s.arena.head.count = 33;
                None
            }
            Step::Littered => {
                s.arena.pointers[31] = 16;
                None
            }
            Step::ManyChunks => {
                s.arena = with_many_chunks(s);
                None
            }
            Step::Plant(plant) => {
                s.planted = Some(Planted::After(plant));
                None
            }
            Step::PlantBeforeTheWrite => {
                s.planted = Some(Planted::BeforeTheWrite);
                None
            }
        }
    }
}

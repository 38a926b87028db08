// Changes that are planted, to see that each is seen.
use crate::case::Case;
use crate::case::Case::{InTurn, Keep};
use crate::case::Kept::{Block, New};
use crate::step::Step::{
    Allocate, AllocateWithToken, CopyIn, Create, Fill, Free, Grow, GrowZeroed, Lend, Plant,
    PlantBeforeTheWrite, Resize, Shrink,
};
use crate::store::Store;
use std::io;
use std::io::Write;
use trial::row::NUMBERS;
use trial::row::Plant::{Byte, Number};

pub const NEW: &[Case] = &[Keep(New, &[Create(16384, 1, 448)], New)];

// After calls that are served, in what they may not write, and after calls that are refused.
pub const CASES: &[Case] = &[
    InTurn(New, &[Plant(Byte(0)), Allocate(1, 1)]),
    InTurn(New, &[Plant(Byte(0)), AllocateWithToken(1, 1)]),
    InTurn(New, &[Plant(Byte(437)), CopyIn("abcdefghij", 1)]),
    InTurn(New, &[Plant(Byte(448)), CopyIn("abcdefghij", 1)]),
    InTurn(New, &[Plant(Byte(446)), Fill(1, 1)]),
    InTurn(New, &[Plant(Byte(448)), Fill(1, 1)]),
    Keep(New, &[CopyIn("abcdefghij", 1)], Block),
    InTurn(Block, &[Plant(Byte(433)), Grow(438, 10, 1, 14, 1)]),
    InTurn(Block, &[Plant(Byte(448)), GrowZeroed(438, 10, 1, 14, 1)]),
    InTurn(Block, &[Plant(Byte(442)), Shrink(438, 10, 1, 5, 1)]),
    InTurn(Block, &[Plant(Byte(448)), Resize(438, 10, 1, 5)]),
    InTurn(Block, &[Plant(Byte(437)), Lend(438, 10, 1)]),
    InTurn(Block, &[Plant(Byte(448)), Lend(438, 10, 1)]),
    InTurn(Block, &[PlantBeforeTheWrite, Lend(438, 10, 1)]),
    InTurn(New, &[Plant(Byte(0)), Allocate(1, 3)]),
    InTurn(New, &[Plant(Number(0)), Allocate(1, 3)]),
    InTurn(New, &[Plant(Byte(16383)), CopyIn("abcdefghij", 3)]),
    InTurn(New, &[Plant(Number(0)), Free(448, 1, 1)]),
    InTurn(New, &[Plant(Byte(16383)), Lend(448, 1, 1)]),
];

fn show_same<W: Write>(out: &mut W, is_same: bool) -> io::Result<()> {
    if is_same {
        writeln!(out, ": unchanged")
    } else {
        writeln!(out, ": CHANGED")
    }
}

// Bytes inside and outside of what a call may write.
const BESIDE: [(usize, usize, usize); 7] = [
    (0, 432, 448),
    (431, 432, 448),
    (432, 432, 448),
    (447, 432, 448),
    (448, 432, 448),
    (16383, 432, 448),
    (432, 432, 432),
];

// The comparisons by themselves, with no call.
pub fn compare<W: Write>(out: &mut W, s: &Store) -> io::Result<()> {
    let changed = |k: &usize| !s.is_same(&s.put(Number(*k)));
    let seen = (0..NUMBERS).filter(changed).count();
    writeln!(
        out,
        "planted: seen {seen} of {NUMBERS} changed numbers of the record"
    )?;
    for at in [0, 8191, 16383] {
        write!(out, "planted: byte {at}")?;
        show_same(out, s.is_same(&s.put(Byte(at))))?;
    }
    for (at, from, to) in BESIDE {
        write!(out, "planted: byte {at} beside {from} to {to}")?;
        show_same(out, s.is_same_outside(&s.put(Byte(at)), from, to))?;
    }
    Ok(())
}

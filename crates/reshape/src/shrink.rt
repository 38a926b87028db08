// Shrink (`shrink` of the Rust library's Allocator).
ghost use Rattle.std.specs.Prelude.{◌≡◌, ◌+◌, ◌≤◌, length, None, Ok};
ghost use Rattle.arena.specs.Record.{held_of};
ghost use Rattle.arena.specs.Inner.{lent_of};
ghost use Rattle.arena.specs.declared.change.Change.TheVariants.{Same};
ghost use Rattle.calls.specs.Allocate.{given};
ghost use Rattle.calls.specs.Shrink.{shrunk_in_place, shrink_in, shrink_of, shrink_bytes};
ghost use Rattle.calls.specs.Inner.{FastBy, AnsweredBy, ShrinkTested};

use arena::change::Change;
use arena::layout::{Block, Layout};
use arena::sound::Sound;
use arena::{Arena, Outcome, Refusal};
use calls::Answered;
use calls::allocate::allocate_in_full;
use calls::block::{is_at_pointer, is_last_block};
use calls::bytes::carry;
use calls::refusals::{change_answer, lent_sound};

// The block keeps its offset, and the record stays as it is.
fn stay(offset: usize) -> Answered<usize>
    ensures { result ≡ record { answer = Ok offset; change = Same } }
{
    Answered {
        answer: Ok(offset),
        change: Change::Same,
    }
}

// The block at the current pointer goes up by d, the bytes that it gives up, where its old and its new place share no byte.
//
//            offset      offset + new    offset + d    offset + old
//     before  [ kept . . . ]                              .
//     after                               [ kept . . . ]  .
//
// For that d has to be half of the old bytes, rounded up: from 5 bytes to 3, d is 2, and the 3 kept bytes would overlap.
fn shrunk_in_place(a: &Sound, offset: usize, old: usize, d: usize) -> Answered<usize>
    requires { (offset + old ≤ a.now.lent.head.region) × (d ≤ old) }
    ensures { AnsweredBy (λ r. given None r (shrunk_in_place (held_of r) offset old d)) (lent_of a.now.lent) result }
{
    if !is_at_pointer(a, offset) {
        return stay(offset);
    }
    if d < (old + 1) / 2 {
        return stay(offset);
    }
    let to = offset + d;
    Answered::moved(to)
}

// Where the shrunk block stands; no byte is carried yet.
pub fn shrunk_block(a: &Sound, block: Block, new: Layout) -> Answered<usize>
    requires { ShrinkTested (lent_of a.now.lent) block.offset block.layout.size new.size new.align }
    ensures { AnsweredBy (λ r. given None r (shrink_in r.head (held_of r) block.offset block.layout.size block.layout.align new.size new.align)) (lent_of a.now.lent) result }
{
    if new.align <= block.layout.align {
        let d = rounding::down_to_power(
            block.layout.size - new.size,
            new.align.max(a.lent.head.minimum),
        );
        return shrunk_in_place(a, block.offset, block.layout.size, d);
    }
    if rounding::is_multiple_of_power(block.offset, new.align) {
        return stay(block.offset);
    }
    allocate_in_full(a, new)
}

// Every test and every way to serve, in the record's own region.
// As grow's, by shrink's own definition.
fn shrink_in_full(a: &Sound, region: &mut [u8], block: Block, new: Layout) -> Answered<usize>
    requires { length region.old ≡ a.now.lent.head.region }
    ensures placed_by { AnsweredBy (λ r. shrink_of r (length region.old) block.offset block.layout.size block.layout.align new.size new.align) (lent_of a.now.lent) result }
    ensures region_after { region.new ≡ shrink_bytes (lent_of a.now.lent) region.old block.offset block.layout.size block.layout.align new.size new.align }
{
    if let Err(r) = change_answer(a, block, new, block.layout.size < new.size) {
        return Answered::refused(r);
    }
    let got = shrunk_block(a, block, new);
    let Ok(to) = got.answer else {
        return got;
    };
    carry(region, block.offset, to, new.size);
    got
}

// Upwards in place, where nothing refuses and the alignment stays.
fn shrink_fast(a: &Sound, block: Block, new: Layout) -> Option<usize>
    ensures { FastBy (λ r. shrink_of r r.head.region block.offset block.layout.size block.layout.align new.size new.align) (lent_of a.now.lent) result }
{
    if block.layout.size < new.size {
        return None;
    }
    if new.align != block.layout.align {
        return None;
    }
    if !is_last_block(a, block) {
        return None;
    }
    let d = rounding::down_to_power(
        block.layout.size - new.size,
        new.align.max(a.lent.head.minimum),
    );
    if d + d < block.layout.size {
        return None;
    }
    Some(block.offset + d)
}

// The same as in full, but short, as allocate's is.
pub fn shrink_placed(a: &Sound, region: &mut [u8], block: Block, new: Layout) -> Answered<usize>
    requires { length region.old ≡ a.now.lent.head.region }
    ensures placed_by { AnsweredBy (λ r. shrink_of r (length region.old) block.offset block.layout.size block.layout.align new.size new.align) (lent_of a.now.lent) result }
    ensures region_after { region.new ≡ shrink_bytes (lent_of a.now.lent) region.old block.offset block.layout.size block.layout.align new.size new.align }
{
    let Some(p) = shrink_fast(a, block, new) else {
        let copy = *a;
        return shrink_in_full(&copy, region, block, new);
    };
    carry(region, block.offset, p, new.size);
    Answered::moved(p)
}

// The frame and the arguments as allocate's.
pub fn shrink_on(
    a: &mut Arena,
    region: &mut [u8],
    offset: usize,
    old: usize,
    old_align: usize,
    new: usize,
    new_align: usize,
) -> Result<usize, Refusal>
    ensures value { result ≡ (shrink_of a.old (length region.old) offset old old_align new new_align).answer }
    ensures arena_after { a.new ≡ (shrink_of a.old (length region.old) offset old old_align new new_align).arena }
    ensures region_after { region.new ≡ shrink_bytes a.old region.old offset old old_align new new_align }
{
    let sound = lent_sound(a.lent(), region.len())?;
    let block = Block {
        offset,
        layout: Layout {
            size: old,
            align: old_align,
        },
    };
    let wanted = Layout {
        size: new,
        align: new_align,
    };
    let got = shrink_placed(&sound, region, block, wanted);
    a.change(got.change);
    got.answer
}

pub fn shrink(
    a: Arena,
    region: &mut [u8],
    offset: usize,
    old: usize,
    old_align: usize,
    new: usize,
    new_align: usize,
) -> Outcome<usize>
    ensures value { result ≡ shrink_of a (length region.old) offset old old_align new new_align }
    ensures region_after { region.new ≡ shrink_bytes a region.old offset old old_align new new_align }
{
    let mut arena = a;
    let answer = shrink_on(&mut arena, region, offset, old, old_align, new, new_align);
    Outcome { answer, arena }
}

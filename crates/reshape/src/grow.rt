// Grow (`grow` and `grow_zeroed` of the Rust library's Allocator).
ghost use Rattle.std.specs.Prelude.{◌≡◌, length, None};
ghost use Rattle.arena.specs.Record.{held_of};
ghost use Rattle.arena.specs.Inner.{lent_of};
ghost use Rattle.calls.specs.Allocate.{given};
ghost use Rattle.calls.specs.Grow.{grow_in, grow_of, grow_bytes, grow_zeroed_bytes};
ghost use Rattle.calls.specs.Inner.{grown_pointer, FastBy, AnsweredBy, GrowTested};

use arena::layout::{Allowed, Block, Layout};
use arena::sound::Sound;
use arena::{Arena, Outcome, Refusal};
use calls::Answered;
use calls::allocate::allocate_in_full;
use calls::block::{is_at_pointer, is_last_block};
use calls::bytes::{carry, fill};
use calls::fast::current_gives;
use calls::refusals::{change_answer, lent_sound};

// The block at the current pointer grows downwards: the bytes that it lacks are asked of the current chunk, and it starts where they start.
//
//            to            offset      to + old    offset + old
//     before  .             [ old bytes . . . . . . ]
//     after   [ old bytes . . . . . . ] . new bytes .
//
// Where it grows by fewer bytes than it has, as here, the two places overlap.
fn in_place(a: &Sound, block: Block, new: Layout) -> Option<usize>
    requires { GrowTested (lent_of a.now.lent) block.layout.size block.layout.align new.size new.align }
    ensures { result ≡ grown_pointer a.now.lent.head.minimum (held_of (lent_of a.now.lent)) block.offset block.layout.size block.layout.align new.size new.align }
{
    if block.layout.align < new.align {
        return None;
    }
    if !is_at_pointer(a, block.offset) {
        return None;
    }
    let more = rounding::up_to_power(new.size, a.lent.head.minimum) - block.layout.size;
    let lacking = Layout {
        size: more,
        ..block.layout
    };
    current_gives(a, Allowed { layout: lacking })
}

// Where the grown block stands, in place or afresh; no byte is carried yet.
pub fn grown_block(a: &Sound, block: Block, new: Layout) -> Answered<usize>
    requires { GrowTested (lent_of a.now.lent) block.layout.size block.layout.align new.size new.align }
    ensures { AnsweredBy (λ r. given None r (grow_in r.head (held_of r) block.offset block.layout.size block.layout.align new.size new.align)) (lent_of a.now.lent) result }
{
    let Some(p) = in_place(a, block, new) else {
        return allocate_in_full(a, new);
    };
    Answered::moved(p)
}

// Every test and every way to serve, in the record's own region.
// Document 01 defines grow, shrink and resize each by itself: one function for all would take their definitions as arguments.
// The region stays beside the record: a struct that holds a `&mut` would need two clauses more in each function that takes it.
fn grow_in_full(a: &Sound, region: &mut [u8], block: Block, new: Layout) -> Answered<usize>
    requires { length region.old ≡ a.now.lent.head.region }
    ensures placed_by { AnsweredBy (λ r. grow_of r (length region.old) block.offset block.layout.size block.layout.align new.size new.align) (lent_of a.now.lent) result }
    ensures region_after { region.new ≡ grow_bytes (lent_of a.now.lent) region.old block.offset block.layout.size block.layout.align new.size new.align }
{
    if let Err(r) = change_answer(a, block, new, new.size < block.layout.size) {
        return Answered::refused(r);
    }
    let got = grown_block(a, block, new);
    let Ok(to) = got.answer else {
        return got;
    };
    carry(region, block.offset, to, block.layout.size);
    got
}

// In place, where nothing refuses and the alignment stays.
fn grow_fast(a: &Sound, block: Block, new: Layout) -> Option<usize>
    ensures { FastBy (λ r. grow_of r r.head.region block.offset block.layout.size block.layout.align new.size new.align) (lent_of a.now.lent) result }
{
    if new.size < block.layout.size {
        return None;
    }
    if Arena::MOST < new.size {
        return None;
    }
    if new.align != block.layout.align {
        return None;
    }
    if !is_last_block(a, block) {
        return None;
    }
    in_place(a, block, new)
}

// The same as in full, but short, as allocate's is.
pub fn grow_placed(a: &Sound, region: &mut [u8], block: Block, new: Layout) -> Answered<usize>
    requires { length region.old ≡ a.now.lent.head.region }
    ensures placed_by { AnsweredBy (λ r. grow_of r (length region.old) block.offset block.layout.size block.layout.align new.size new.align) (lent_of a.now.lent) result }
    ensures region_after { region.new ≡ grow_bytes (lent_of a.now.lent) region.old block.offset block.layout.size block.layout.align new.size new.align }
{
    let Some(p) = grow_fast(a, block, new) else {
        let copy = *a;
        return grow_in_full(&copy, region, block, new);
    };
    carry(region, block.offset, p, block.layout.size);
    Answered::moved(p)
}

// The frame and the arguments as allocate's.
pub fn grow_on(
    a: &mut Arena,
    region: &mut [u8],
    offset: usize,
    old: usize,
    old_align: usize,
    new: usize,
    new_align: usize,
) -> Result<usize, Refusal>
    ensures value { result ≡ (grow_of a.old (length region.old) offset old old_align new new_align).answer }
    ensures arena_after { a.new ≡ (grow_of a.old (length region.old) offset old old_align new new_align).arena }
    ensures region_after { region.new ≡ grow_bytes a.old region.old offset old old_align new new_align }
{
    let sound = lent_sound(a.lent(), region.len())?;
    let block = Block {
        offset,
        layout: Layout {
            size: old,
            align: old_align,
        },
    };
    let wanted = Layout {
        size: new,
        align: new_align,
    };
    let got = grow_placed(&sound, region, block, wanted);
    a.change(got.change);
    got.answer
}

pub fn grow(
    a: Arena,
    region: &mut [u8],
    offset: usize,
    old: usize,
    old_align: usize,
    new: usize,
    new_align: usize,
) -> Outcome<usize>
    ensures value { result ≡ grow_of a (length region.old) offset old old_align new new_align }
    ensures region_after { region.new ≡ grow_bytes a region.old offset old old_align new new_align }
{
    let mut arena = a;
    let answer = grow_on(&mut arena, region, offset, old, old_align, new, new_align);
    Outcome { answer, arena }
}

// The bytes after the old ones are cleared.
pub fn grow_zeroed_on(
    a: &mut Arena,
    region: &mut [u8],
    offset: usize,
    old: usize,
    old_align: usize,
    new: usize,
    new_align: usize,
) -> Result<usize, Refusal>
    ensures value { result ≡ (grow_of a.old (length region.old) offset old old_align new new_align).answer }
    ensures arena_after { a.new ≡ (grow_of a.old (length region.old) offset old old_align new new_align).arena }
    ensures region_after { region.new ≡ grow_zeroed_bytes a.old region.old offset old old_align new new_align }
{
    let to = grow_on(a, region, offset, old, old_align, new, new_align)?;
    fill(region, to + old, new - old, 0);
    Ok(to)
}

pub fn grow_zeroed(
    a: Arena,
    region: &mut [u8],
    offset: usize,
    old: usize,
    old_align: usize,
    new: usize,
    new_align: usize,
) -> Outcome<usize>
    ensures value { result ≡ grow_of a (length region.old) offset old old_align new new_align }
    ensures region_after { region.new ≡ grow_zeroed_bytes a region.old offset old old_align new new_align }
{
    let mut arena = a;
    let answer = grow_zeroed_on(&mut arena, region, offset, old, old_align, new, new_align);
    Outcome { answer, arena }
}

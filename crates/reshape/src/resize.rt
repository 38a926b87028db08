// Resize (`realloc` in the Rust): another size at the same alignment.
ghost use Rattle.std.specs.Prelude.{◌≡◌, ◌+◌, ◌<◌, ◌≤◌, min, length, None};
ghost use Rattle.arena.specs.Record.{held_of};
ghost use Rattle.arena.specs.Inner.{lent_of};
ghost use Rattle.calls.specs.Allocate.{given};
ghost use Rattle.calls.specs.Resize.{resize_in, resize_of, resize_bytes};
ghost use Rattle.calls.specs.Inner.{AnsweredBy, Tested};

use crate::grow::grown_block;
use crate::shrink::shrunk_block;
use arena::layout::{Block, Layout};
use arena::sound::Sound;
use arena::{Arena, Outcome, Refusal};
use calls::Answered;
use calls::allocate::allocate_in_full;
use calls::bytes::carry;
use calls::refusals::{change_answer, lent_sound};

// Where the block of a size above 0 stands; no byte is carried yet.
fn resized_block(a: &Sound, block: Block, new: usize) -> Answered<usize>
    requires tested { Tested (lent_of a.now.lent) new block.layout.align }
    requires nonzero { (0 < block.layout.size) × (block.offset + block.layout.size ≤ a.now.lent.head.region) }
    ensures { AnsweredBy (λ r. given None r (resize_in r.head (held_of r) block.offset block.layout.size block.layout.align new)) (lent_of a.now.lent) result }
{
    let wanted = Layout {
        size: new,
        ..block.layout
    };
    if new <= block.layout.size {
        return shrunk_block(a, block, wanted);
    }
    grown_block(a, block, wanted)
}

// In the record's own region. A size of 0 names no block: its offset is not tested.
// As grow's, by resize's own definition.
pub fn resize_placed(a: &Sound, region: &mut [u8], block: Block, new: usize) -> Answered<usize>
    requires { length region.old ≡ a.now.lent.head.region }
    ensures placed_by { AnsweredBy (λ r. resize_of r (length region.old) block.offset block.layout.size block.layout.align new) (lent_of a.now.lent) result }
    ensures region_after { region.new ≡ resize_bytes (lent_of a.now.lent) region.old block.offset block.layout.size block.layout.align new }
{
    let wanted = Layout {
        size: new,
        ..block.layout
    };
    if block.layout.size == 0 {
        return allocate_in_full(a, wanted);
    }
    if let Err(r) = change_answer(a, block, wanted, false) {
        return Answered::refused(r);
    }
    let got = resized_block(a, block, new);
    let Ok(to) = got.answer else {
        return got;
    };
    carry(region, block.offset, to, block.layout.size.min(new));
    got
}

// The frame and the arguments as allocate's.
pub fn resize_on(
    a: &mut Arena,
    region: &mut [u8],
    offset: usize,
    old: usize,
    align: usize,
    new: usize,
) -> Result<usize, Refusal>
    ensures value { result ≡ (resize_of a.old (length region.old) offset old align new).answer }
    ensures arena_after { a.new ≡ (resize_of a.old (length region.old) offset old align new).arena }
    ensures region_after { region.new ≡ resize_bytes a.old region.old offset old align new }
{
    let sound = lent_sound(a.lent(), region.len())?;
    let block = Block {
        offset,
        layout: Layout { size: old, align },
    };
    let got = resize_placed(&sound, region, block, new);
    a.change(got.change);
    got.answer
}

pub fn resize(
    a: Arena,
    region: &mut [u8],
    offset: usize,
    old: usize,
    align: usize,
    new: usize,
) -> Outcome<usize>
    ensures value { result ≡ resize_of a (length region.old) offset old align new }
    ensures region_after { region.new ≡ resize_bytes a region.old offset old align new }
{
    let mut arena = a;
    let answer = resize_on(&mut arena, region, offset, old, align, new);
    Outcome { answer, arena }
}

// The walk: each held chunk's bytes from pointer to end, newest first.
//
//     let mut w = start(region, arena);
//     while said(w).left != 0 {
//         .. part(w) ..
//         w = moved(w);
//     }
ghost use Rattle.std.specs.Prelude.{◌≡◌, length};
ghost use Rattle.calls.specs.Bytes.{stands_at};
ghost use Rattle.host.specs.Walk.{step_of, step_part, next_index};

use crate::SaidStep;
use arena::Arena;
use calls::refusals::lent_sound;

// The record holds the chunk table; index 0 is the newest chunk.
#[derive(Clone, Copy)]
pub struct Walk<'r> {
    pub region: &'r [u8],
    pub arena: Arena,
    pub index: usize,
}

// By the region's length, which is all that a step reads of it.
fn step_in(a: &Arena, lent: usize, index: usize) -> SaidStep
    ensures { result ≡ step_of a.now lent index }
{
    let sound = match lent_sound(a.lent(), lent) {
        Ok(sound) => sound,
        Err(r) => {
            return SaidStep {
                refusal: r.number(),
                ..SaidStep::default()
            };
        }
    };
    let count = a.head.count;
    if count <= index {
        return SaidStep::default();
    }
    let left = count - index;
    let c = sound.lent.chunk_at(left - 1);
    SaidStep {
        refusal: 0,
        left,
        offset: c.pointer,
        length: c.start + c.size - c.pointer,
    }
}

// The step and its part for a caller that keeps the region, the record and the index itself.
pub fn step_at(region: &[u8], a: Arena, index: usize) -> SaidStep
    ensures { result ≡ step_of a (length region.now) index }
{
    step_in(&a, region.len(), index)
}

pub fn part_at<'r>(region: &'r [u8], a: Arena, index: usize) -> &'r [u8]
    ensures { (result.now ≡ step_part region.now (step_of a (length region.now) index)) × (result.ref_ptr ≡ stands_at region.entry.ref_ptr (step_of a (length region.now) index).offset) }
{
    let step = step_in(&a, region.len(), index);
    let from = step.offset;
    let end = from + step.length;
    &region[from..end]
}

pub fn next_index(index: usize) -> usize
    ensures { result ≡ next_index index }
{
    if index < Arena::PLACES {
        return index + 1;
    }
    index
}

pub fn start<'r>(region: &'r [u8], arena: Arena) -> Walk<'r>
    ensures { (result.region ≡ region.entry) × (result.arena ≡ arena) × (result.index ≡ 0) }
{
    Walk {
        region,
        arena,
        index: 0,
    }
}

pub fn said<'r>(w: Walk<'r>) -> SaidStep
    ensures { result ≡ step_of w.entry.arena (length w.entry.region.now) w.entry.index }
{
    step_at(w.region, w.arena, w.index)
}

pub fn part<'r>(w: Walk<'r>) -> &'r [u8]
    ensures { (result.now ≡ step_part w.entry.region.now (step_of w.entry.arena (length w.entry.region.now) w.entry.index)) × (result.ref_ptr ≡ stands_at w.entry.region.ref_ptr (step_of w.entry.arena (length w.entry.region.now) w.entry.index).offset) }
{
    part_at(w.region, w.arena, w.index)
}

// No iterator: a step says its refusal and what is left, which the C entry and the bindings hand on.
pub fn moved<'r>(w: Walk<'r>) -> Walk<'r>
    ensures { (result.region ≡ w.entry.region) × (result.arena ≡ w.entry.arena) × (result.index ≡ next_index w.entry.index) }
{
    let next = next_index(w.index);
    Walk {
        region: w.region,
        arena: w.arena,
        index: next,
    }
}

#[unsafe(no_mangle)]
pub extern "C" fn miravoly_walk(arena: &Arena, region: &[u8], index: usize) -> SaidStep
    ensures { result ≡ step_of arena.now (length region.now) index }
{
    step_in(arena, region.len(), index)
}

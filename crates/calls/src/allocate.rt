// Allocate: from the current chunk, else from a new one (`try_alloc_layout` in the Rust).
ghost use Rattle.std.specs.Prelude.{◌≡◌, length, None, Ok};
ghost use Rattle.arena.specs.declared.change.Change.TheVariants.{Moved};
ghost use Rattle.arena.specs.Record.{held_of};
ghost use Rattle.arena.specs.Ladder.{ladder};
ghost use Rattle.arena.specs.Inner.{lent_of};
ghost use Rattle.calls.specs.Allocate.{new_chunk_gives, given, allocate_of};
ghost use Rattle.calls.specs.Inner.{FastBy, AnsweredBy};

use crate::Answered;
use crate::fast::{chunk_gives, current_gives};
use crate::refusals::lent_sound;
use arena::change::Change;
use arena::ladder::climb;
use arena::layout::{Allowed, Layout};
use arena::lent::Inside;
use arena::sound::{Sound, is_allowed_align};
use arena::{Arena, Chunk, Outcome, Refusal};

impl Answered<usize> {
    // A block at the pointer that the current chunk has then.
    pub fn moved(p: usize) -> Self
        ensures { result ≡ record { answer = Ok p; change = Moved p } }
    {
        Answered {
            answer: Ok(p),
            change: Change::Moved(p),
        }
    }
}

// The ladder's part: a new chunk becomes current and gives the block.
fn placed_slow(a: &Sound, request: Allowed) -> Answered<usize>
    ensures { AnsweredBy (λ r. given None r (new_chunk_gives r.head.minimum (held_of r) (ladder r.head (held_of r) request.layout.size request.layout.align) request.layout.size request.layout.align)) (lent_of a.now.lent) result }
{
    let Some(c) = climb(&Inside { lent: a.lent }, request) else {
        return Answered::refused(Refusal::Room);
    };
    let Some(pointer) = chunk_gives(a.lent.head.minimum, c, request) else {
        return Answered::refused(Refusal::Room);
    };
    Answered {
        answer: Ok(pointer),
        change: Change::Added(Chunk { pointer, ..c }),
    }
}

// Every test and every way to serve, in the record's own region. It has several callers and is long, so that the compiler leaves it a function of its own.
pub fn allocate_in_full(a: &Sound, layout: Layout) -> Answered<usize>
    ensures { AnsweredBy (λ r. allocate_of r r.head.region layout.size layout.align) (lent_of a.now.lent) result }
{
    if Arena::MOST < layout.size {
        return Answered::refused(Refusal::Size);
    }
    if !is_allowed_align(layout.align) {
        return Answered::refused(Refusal::Align);
    }
    let request = Allowed { layout };
    let Some(p) = current_gives(a, request) else {
        return placed_slow(a, request);
    };
    Answered::moved(p)
}

// The current chunk's block, where nothing refuses the request.
pub fn allocate_fast(a: &Sound, layout: Layout) -> Option<usize>
    ensures { FastBy (λ r. allocate_of r r.head.region layout.size layout.align) (lent_of a.now.lent) result }
{
    if a.lent.head.count == 0 {
        return None;
    }
    if Arena::MOST < layout.size {
        return None;
    }
    if !is_allowed_align(layout.align) {
        return None;
    }
    let request = Allowed { layout };
    current_gives(a, request)
}

// The same as in full. It is short, so that the compiler puts it into its callers; the record that the long way is lent is a copy made on that way alone, or each
// call would store its parts.
pub fn allocate_placed(a: &Sound, layout: Layout) -> Answered<usize>
    ensures { AnsweredBy (λ r. allocate_of r r.head.region layout.size layout.align) (lent_of a.now.lent) result }
{
    let Some(p) = allocate_fast(a, layout) else {
        let copy = *a;
        return allocate_in_full(&copy, layout);
    };
    Answered::moved(p)
}

// On a record that is lent and changed where it stands: by value it would be copied to the call and back. Each call has this form, which the entries for hosts
// run, and below it the call by value, which is the same on a record of its own.
// The arguments are document 01's own, in its order, here and in each of them.
pub fn allocate_on(
    a: &mut Arena,
    region: &[u8],
    size: usize,
    align: usize,
) -> Result<usize, Refusal>
    ensures value { result ≡ (allocate_of a.old (length region.now) size align).answer }
    ensures arena_after { a.new ≡ (allocate_of a.old (length region.now) size align).arena }
{
    let sound = lent_sound(a.lent(), region.len())?;
    let got = allocate_placed(&sound, Layout { size, align });
    a.change(got.change);
    got.answer
}

pub fn allocate(a: Arena, region: &[u8], size: usize, align: usize) -> Outcome<usize>
    ensures { result ≡ allocate_of a (length region.now) size align }
{
    let mut arena = a;
    let answer = allocate_on(&mut arena, region, size, align);
    Outcome { answer, arena }
}

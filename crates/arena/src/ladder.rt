// The ladder: from a first base down by halves, the first rung that is served gives the new chunk (`alloc_layout_slow` in the Rust).
ghost use Rattle.std.specs.Prelude.{◌≡◌, true, ◌≤◌, ◌^◌};
ghost use Rattle.arena.specs.Record.{held_of};
ghost use Rattle.arena.specs.Ladder.{held_bytes, first_base, tried, under_limit, rung_chunk, ladder};
ghost use Rattle.arena.specs.Inner.{lent_of};

use crate::layout::Allowed;
use crate::lent::Inside;
use crate::placing::lowest_place;
use crate::sizing::usable_size;
use crate::{Arena, Chunk, Head};

pub fn held_bytes(a: &Inside) -> usize
    ensures { result ≡ held_bytes (held_of (lent_of a.now.lent)) }
{
    let count = a.lent.head.count;
    let mut held = 0;
    // By places and not by an iterator: a chunk is put together from three columns, and the invariant speaks of the places passed.
    for i in 0..count {
        held += a.lent.chunk_at(i).size;
    }
    held
}

fn first_base(a: &Inside, size: usize) -> usize
    ensures { result ≡ first_base (held_of (lent_of a.now.lent)) size }
{
    let floor = size.max(Arena::DEFAULT_SIZE);
    let Some(c) = a.lent.current() else {
        return floor;
    };
    (2 * c.size).max(floor)
}

fn is_tried(h: Head, held: usize, size: usize, base: usize) -> bool
    ensures { result ≡ tried h held size base }
{
    if size.max(Arena::DEFAULT_SIZE) <= base {
        return true;
    }
    if h.limited != 1 {
        return false;
    }
    if h.limit <= size {
        return false;
    }
    if base < size {
        return false;
    }
    if Arena::DEFAULT_SIZE <= h.limit {
        return false;
    }
    held == 0
}

fn is_under_limit(h: Head, held: usize, n: usize) -> bool
    ensures { result ≡ under_limit h held n }
{
    if h.limited != 1 {
        return true;
    }
    if h.limit < held {
        return true;
    }
    n <= h.limit - held
}

// The chunk that a rung gives. The held bytes are handed in, since they are the same at every rung.
pub fn take_rung(a: &Inside, held: usize, request: Allowed, base: usize) -> Option<Chunk>
    requires base_bound { base ≤ 2 ^ 31 }
    requires held_value { held ≡ held_bytes (held_of (lent_of a.now.lent)) }
    ensures { result ≡ rung_chunk a.now.lent.head (held_of (lent_of a.now.lent)) request.layout.size request.layout.align base }
{
    let h = a.lent.head;
    let n = usable_size(base, request);
    if !is_under_limit(h, held, n) {
        return None;
    }
    if Arena::PLACES <= h.count {
        return None;
    }
    let start = lowest_place(a, Arena::STEP.max(request.layout.align), n)?;
    Some(Chunk {
        start,
        size: n,
        pointer: start + n,
    })
}

pub fn climb(a: &Inside, request: Allowed) -> Option<Chunk>
    ensures { result ≡ ladder a.now.lent.head (held_of (lent_of a.now.lent)) request.layout.size request.layout.align }
{
    let h = a.lent.head;
    let held = held_bytes(a);
    let mut base = first_base(a, request.layout.size);
    while is_tried(h, held, request.layout.size, base) {
        if let Some(c) = take_rung(a, held, request, base) {
            return Some(c);
        }
        if base == 0 {
            return None;
        }
        base /= 2;
    }
    None
}

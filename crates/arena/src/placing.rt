// Where a new chunk can stand. From an offset, every chunk in the way is passed; an offset that nothing stands in the way of is the lowest.
ghost use Rattle.std.specs.Prelude.{◌≡◌, true, ◌+◌, ◌<◌, ◌≤◌, ◌^◌};
ghost use Rattle.std.specs.Int.{◌∣◌};
ghost use Rattle.arena.specs.Numbers.{largest_align};
ghost use Rattle.arena.specs.Record.{past_of, held_of};
ghost use Rattle.arena.specs.Placing.{misses, lowest_place};
ghost use Rattle.arena.specs.Inner.{lent_of, Passed};

use crate::lent::Inside;
use crate::{Arena, Chunk};

fn is_clear_of(at: usize, length: usize, c: Chunk) -> bool
    requires { (at + length < 2 ^ 64) × (past_of c < 2 ^ 64) }
    ensures { result ≡ misses at length c }
{
    if at + length <= c.start {
        return true;
    }
    c.start + c.size + Arena::FOOTER <= at
}

// Goes once through the table and passes each chunk that stands in the way of length bytes.
fn past_chunks(a: &Inside, align: usize, length: usize, from: usize) -> usize
    requires { (0 < align) × (align ≤ largest_align) × (align ∣ from) × (from ≤ a.now.lent.head.region) × (length ≤ a.now.lent.head.region) }
    ensures { Passed (held_of (lent_of a.now.lent)) align length from result }
{
    let count = a.lent.head.count;
    let mut at = from;
    // By places, since a chunk is put together from three columns.
    for i in 0..count {
        let c = a.lent.chunk_at(i);
        if !is_clear_of(at, length, c) {
            at = rounding::round_up_to(c.start + c.size + Arena::FOOTER, align);
        }
    }
    at
}

pub fn lowest_place(a: &Inside, align: usize, n: usize) -> Option<usize>
    requires { (0 < align) × (align ≤ largest_align) × (n < 2 ^ 63) }
    ensures { result ≡ lowest_place a.now.lent.head.region (held_of (lent_of a.now.lent)) align n }
{
    let region = a.lent.head.region;
    let length = n + Arena::FOOTER;
    if region < length {
        return None;
    }
    let last = region - length;
    let mut at = 0;
    while at <= last {
        let next = past_chunks(a, align, length, at);
        if next == at {
            return Some(at);
        }
        at = next;
    }
    None
}

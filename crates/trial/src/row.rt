// The record as a row of 101 numbers: region, minimum, limited, limit and count, and then the columns of starts, sizes and pointers. And changes that are planted in
// a record or in bytes after a call, to see that each is seen.
ghost use Rattle.std.specs.Prelude.{◌≡◌, ◌≤◌, ◌-◌, ℕ, [], IfSome, None, slice_index};
ghost use Rattle.arena.specs.Record.{holding};
ghost use Rattle.arena.specs.Creation.{fresh_head};
ghost use Rattle.trial.specs.declared.row.Plant.TheVariants.{Number, Byte};

use arena::creation::emptied;
use arena::{Arena, Chunk, Head};

pub const NUMBERS: usize = 101;

// The record of a region of this length with no chunk, minimum 1 and no limit.
pub fn no_chunk(region: usize) -> Arena
    ensures { result ≡ holding (fresh_head region 1) [] }
{
    emptied(Head {
        region,
        minimum: 1,
        limited: 0,
        limit: 0,
        count: 0,
    })
}

// None past the end of the row. The numbers are matched, since a row is what has no names.
fn number_at(a: &mut Arena, k: usize) -> Option<&mut usize> {
    match k {
        0 => Some(&mut a.head.region),
        1 => Some(&mut a.head.minimum),
        2 => Some(&mut a.head.limited),
        3 => Some(&mut a.head.limit),
        4 => Some(&mut a.head.count),
        5..=36 => a.starts.get_mut(k - 5),
        37..=68 => a.sizes.get_mut(k - 37),
        _ => a.pointers.get_mut(k - 69),
    }
}

// Puts a chunk in a place of the table, where there is such a place.
pub fn put_chunk(a: &mut Arena, place: usize, c: Chunk)
    ensures head { a.new.head ≡ a.old.head }
    ensures past { 32 ≤ place → a.new ≡ a.old }
{
    if place < Arena::PLACES {
        a.starts[place] = c.start;
        a.sizes[place] = c.size;
        a.pointers[place] = c.pointer;
    }
}

// The pointer of the chunk that was taken last. None with no chunk, and with more than the table has places for.
pub fn current_pointer(a: &Arena) -> Option<usize>
    ensures none { a.now.head.count ≡ 0 → result ≡ None }
    ensures last { IfSome result (λ p. p ≡ slice_index a.now.pointers (a.now.head.count - 1)) }
{
    let last = a.head.count.checked_sub(1)?;
    a.pointers.get(last).copied()
}

#[derive(Clone, Copy)]
pub enum Plant {
    // A number of the row is one more.
    Number(usize),
    // A byte has another last bit.
    Byte(usize),
}

impl Plant {
    // Past the end of the row or of the bytes nothing changes.
    pub fn put(self, a: &mut Arena, bytes: &mut [u8])
        ensures number { (k : ℕ) → self ≡ Number k → bytes.new ≡ bytes.old }
        ensures byte { (i : ℕ) → self ≡ Byte i → a.new ≡ a.old }
    {
        match self {
            Plant::Number(k) => {
                if let Some(number) = number_at(a, k) {
                    *number = number.wrapping_add(1);
                }
            }
            Plant::Byte(i) => {
                if let Some(byte) = bytes.get_mut(i) {
                    *byte ^= 1;
                }
            }
        }
    }
}

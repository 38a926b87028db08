// A record that is lent for reading, in the four parts that a host's record stands in: one by value would be copied whole for each number read.
ghost use Rattle.std.specs.Prelude.{◌≡◌, true, ◌&&◌, ◌<◌, ◌≤◌, eqb};
ghost use Rattle.arena.specs.Numbers.{places};
ghost use Rattle.arena.specs.Record.{chunk_at, held_of};
ghost use Rattle.arena.specs.Sound.{table_sound};
ghost use Rattle.arena.specs.Inner.{lent_of, current_of, is_ready};

use crate::{Arena, Chunk, Head};

// It borrows what an `Arena` holds.
#[derive(Clone, Copy)]
pub struct Lent<'a> {
    pub head: Head,
    pub starts: &'a [usize; 32],
    pub sizes: &'a [usize; 32],
    pub pointers: &'a [usize; 32],
}

// A lent record whose chunks stand inside its region. The ladder and placing lean on nothing more, and the test of soundness gets so far before its end.
#[derive(Clone, Copy)]
pub struct Inside<'a> {
    pub lent: Lent<'a>,
    ghost ready: { is_ready lent.head (held_of (lent_of lent)) ≡ true },
}

impl<'a> Lent<'a> {
    // Place i of the table.
    pub fn chunk_at(&self, i: usize) -> Chunk
        requires { i < places }
        ensures { result ≡ chunk_at self.now.starts.now self.now.sizes.now self.now.pointers.now i }
    {
        Chunk {
            start: self.starts[i],
            size: self.sizes[i],
            pointer: self.pointers[i],
        }
    }

    // The chunk taken last, if any is held.
    pub fn current(&self) -> Option<Chunk>
        requires { self.now.head.count ≤ places }
        ensures { result ≡ current_of (held_of (lent_of self.now)) }
    {
        let count = self.head.count;
        if count == 0 {
            return None;
        }
        Some(self.chunk_at(count - 1))
    }

    // All unused numbers in one: zero where each is. Without an early way out the loop is done several places at a time.
    pub fn unused_bits(&self) -> usize
        requires { self.now.head.count ≤ places }
        ensures { eqb result 0 ≡ table_sound (lent_of self.now) }
    {
        let Lent {
            head,
            starts,
            sizes,
            pointers,
        } = *self;
        // As slices the columns bring their lengths into the proof.
        let starts = &starts[..];
        let sizes = &sizes[..];
        let pointers = &pointers[..];
        let mut bits = 0;
        // By places: three columns go side by side, and the compiler does several places at a time.
        for i in head.count..Arena::PLACES {
            bits = bits | starts[i] | sizes[i] | pointers[i];
        }
        bits
    }
}

impl Arena {
    pub fn lent(&self) -> Lent<'_>
        ensures { lent_of result ≡ self.now }
    {
        Lent {
            head: self.head,
            starts: &self.starts,
            sizes: &self.sizes,
            pointers: &self.pointers,
        }
    }
}

// Whether a record is sound. Any 64-bit numbers may stand in it, so nothing is added here before it has been tested.
ghost use Rattle.std.specs.Prelude.{◌≡◌, IfSome, IfNone, Bool, true, false, ◌&&◌, ◌+◌, ◌<◌, ◌≤◌, ◌^◌};
ghost use Rattle.rounding.specs.Every.{every};
ghost use Rattle.rounding.specs.Round.{one_bit};
ghost use Rattle.arena.specs.Numbers.{places};
ghost use Rattle.arena.specs.Record.{past_of, chunk_at, chunks_of, held_of};
ghost use Rattle.arena.specs.Sound.{
  allowed_align,
  allowed_minimum,
  limit_formed,
  head_sound,
  chunk_sound,
  clear,
  apart,
  sound_of,
};
ghost use Rattle.arena.specs.Inner.{lent_of, current_of, ascending};

use crate::lent::{Inside, Lent};
use crate::{Arena, Chunk, Head};

// These two are document 01's two lists, each with its own largest.
pub fn is_allowed_align(align: usize) -> bool
    ensures { result ≡ allowed_align align }
{
    rounding::has_one_bit_up_to(align, Arena::LARGEST_ALIGN)
}

pub fn is_allowed_minimum(minimum: usize) -> bool
    ensures { result ≡ allowed_minimum minimum }
{
    rounding::has_one_bit_up_to(minimum, Arena::LARGEST_MINIMUM)
}

fn is_limit_formed(h: Head) -> bool
    ensures { result ≡ limit_formed h }
{
    if h.limited == 1 {
        return true;
    }
    if h.limited != 0 {
        return false;
    }
    h.limit == 0
}

fn is_head_sound(h: Head) -> bool
    ensures { result ≡ head_sound h }
{
    if !is_allowed_minimum(h.minimum) {
        return false;
    }
    if Arena::MOST < h.region {
        return false;
    }
    if !is_limit_formed(h) {
        return false;
    }
    h.count <= Arena::PLACES
}

fn is_chunk_sound(region: usize, minimum: usize, c: Chunk) -> bool
    requires { one_bit minimum ≡ true }
    ensures { result ≡ chunk_sound region minimum c }
{
    if region < Arena::FOOTER {
        return false;
    }
    let room = region - Arena::FOOTER;
    if room < c.size {
        return false;
    }
    if !rounding::is_multiple(c.size, Arena::STEP) {
        return false;
    }
    if room - c.size < c.start {
        return false;
    }
    if !rounding::is_multiple(c.start, Arena::STEP) {
        return false;
    }
    if c.pointer < c.start {
        return false;
    }
    if c.start + c.size < c.pointer {
        return false;
    }
    // For a power of two the mask is the remainder, and the pass over the chunks has no division.
    c.pointer & (minimum - 1) == 0
}

// Chunks mostly ascend, each from past the one taken before it. From the newest down, each is then sound below the start of the one after it, and they are
// apart without a test of every pair. They need not ascend after a reset, nor where a large alignment left a gap that a later chunk was placed in.
fn are_ascending(a: &Lent) -> bool
    requires { (one_bit a.now.head.minimum ≡ true) × (a.now.head.count ≤ places) }
    ensures { result ≡ ascending a.now.head.region a.now.head.minimum (held_of (lent_of a.now)) }
{
    let h = a.head;
    let mut top = h.region;
    let mut left = h.count;
    // Counted down, so that what is left is the list of the first places, as the definition goes by.
    while 0 < left {
        left -= 1;
        let c = a.chunk_at(left);
        if !is_chunk_sound(top, h.minimum, c) {
            return false;
        }
        top = c.start;
    }
    true
}

// Each by itself, in any order.
fn are_chunks_sound(a: &Lent) -> bool
    requires { (one_bit a.now.head.minimum ≡ true) × (a.now.head.count ≤ places) }
    ensures { result ≡ every (chunk_sound a.now.head.region a.now.head.minimum) (held_of (lent_of a.now)) }
{
    let h = a.head;
    // By places, since a chunk is put together from three columns.
    for i in 0..h.count {
        let c = a.chunk_at(i);
        if !is_chunk_sound(h.region, h.minimum, c) {
            return false;
        }
    }
    true
}

fn are_clear(c: Chunk, d: Chunk) -> bool
    requires { (past_of c < 2 ^ 64) × (past_of d < 2 ^ 64) }
    ensures { result ≡ clear c d }
{
    if c.start + c.size + Arena::FOOTER <= d.start {
        return true;
    }
    d.start + d.size + Arena::FOOTER <= c.start
}

// Place i and the places before it.
fn is_clear_of_earlier(a: &Inside, i: usize) -> bool
    requires { i < a.now.lent.head.count }
    ensures { result ≡ every (clear (chunk_at a.now.lent.starts.now a.now.lent.sizes.now a.now.lent.pointers.now i)) (chunks_of a.now.lent.starts.now a.now.lent.sizes.now a.now.lent.pointers.now i) }
{
    let c = a.lent.chunk_at(i);
    for j in 0..i {
        let d = a.lent.chunk_at(j);
        if !are_clear(c, d) {
            return false;
        }
    }
    true
}

fn are_apart(a: &Inside) -> bool
    ensures { result ≡ apart (held_of (lent_of a.now.lent)) }
{
    let count = a.lent.head.count;
    // By places: each is held against those before it.
    for i in 0..count {
        if !is_clear_of_earlier(a, i) {
            return false;
        }
    }
    true
}

// The whole test.
pub fn is_sound(a: &Lent) -> bool
    ensures { result ≡ sound_of (lent_of a.now) }
{
    if !is_head_sound(a.head) {
        return false;
    }
    if a.unused_bits() != 0 {
        return false;
    }
    if are_ascending(a) {
        return true;
    }
    if !are_chunks_sound(a) {
        return false;
    }
    are_apart(&Inside { lent: *a })
}

// A lent record that is known to be sound.
#[derive(Clone, Copy)]
pub struct Sound<'a> {
    pub lent: Lent<'a>,
    ghost sound: { sound_of (lent_of lent) ≡ true },
}

impl<'a> Sound<'a> {
    // The chunk taken last, if any is held.
    pub fn current(&self) -> Option<Chunk>
        ensures { result ≡ current_of (held_of (lent_of self.now.lent)) }
    {
        self.lent.current()
    }
}

impl<'a> Lent<'a> {
    // The same record, where it is sound.
    pub fn sound(self) -> Option<Sound<'a>>
        ensures unsound { IfNone result (sound_of (lent_of self.entry) ≡ false) }
        ensures same { IfSome result (λ s. s.lent ≡ self.entry) }
    {
        if !is_sound(&self) {
            return None;
        }
        Some(Sound { lent: self })
    }
}

impl Arena {
    pub fn sound(&self) -> Option<Sound<'_>>
        ensures unsound { IfNone result (sound_of self.now ≡ false) }
        ensures same { IfSome result (λ s. lent_of s.lent ≡ self.now) }
    {
        self.lent().sound()
    }
}

// What is asked of a block that a call names: whether it is acceptable, and whether it is at the current pointer. The offset is any 64-bit number, so
// nothing is added to it before it is known to lie in a chunk.
ghost use Rattle.std.specs.Prelude.{◌≡◌, true, ◌+◌, ◌<◌, ◌≤◌, ◌^◌};
ghost use Rattle.rounding.specs.Round.{one_bit};
ghost use Rattle.arena.specs.Record.{held_of};
ghost use Rattle.arena.specs.Inner.{lent_of};
ghost use Rattle.calls.specs.Tests.{has_block, acceptable};
ghost use Rattle.calls.specs.Allocate.{at_pointer};
ghost use Rattle.calls.specs.Inner.{LastBlock};

use arena::Chunk;
use arena::layout::Block;
use arena::lent::Inside;
use arena::sound::{Sound, is_allowed_align};

fn has_block(c: Chunk, offset: usize, size: usize) -> bool
    requires { c.start + c.size < 2 ^ 64 }
    ensures { result ≡ has_block offset size c }
{
    let end = c.start + c.size;
    if end < offset {
        return false;
    }
    if size == 0 {
        return c.start <= offset;
    }
    if offset < c.pointer {
        return false;
    }
    size <= end - offset
}

// The newest chunk is asked first: most calls name a block that was given out lately.
pub fn is_acceptable(a: &Inside, block: Block) -> bool
    requires { one_bit block.layout.align ≡ true }
    ensures { result ≡ acceptable (held_of (lent_of a.now.lent)) block.offset block.layout.size block.layout.align }
{
    if !rounding::is_multiple_of_power(block.offset, block.layout.align) {
        return false;
    }
    let mut left = a.lent.head.count;
    // Counted down, so that what is left is the list of the first places, as the definition goes by.
    while 0 < left {
        left -= 1;
        let c = a.lent.chunk_at(left);
        if has_block(c, block.offset, block.layout.size) {
            return true;
        }
    }
    false
}

// What was given out last stands at the current pointer.
pub fn is_at_pointer(a: &Sound, offset: usize) -> bool
    ensures { result ≡ at_pointer (held_of (lent_of a.now.lent)) offset }
{
    let Some(c) = a.current() else {
        return false;
    };
    offset == c.pointer
}

// Whether the block is the last one given out, and nothing is wrong with it. No other chunk has to be asked: it ends in the current one, so that its size is
// within the maximum too.
pub fn is_last_block(a: &Sound, block: Block) -> bool
    ensures { result ≡ true → LastBlock (lent_of a.now.lent) block.offset block.layout.size block.layout.align }
{
    let Some(c) = a.current() else {
        return false;
    };
    if block.offset != c.pointer {
        return false;
    }
    if c.start + c.size - block.offset < block.layout.size {
        return false;
    }
    if !is_allowed_align(block.layout.align) {
        return false;
    }
    rounding::is_multiple_of_power(block.offset, block.layout.align)
}

// The current chunk's answer, without the ladder (`try_alloc_layout_fast` in the Rust).
ghost use Rattle.std.specs.Prelude.{◌≡◌, true, ◌≤◌};
ghost use Rattle.rounding.specs.Round.{one_bit};
ghost use Rattle.arena.specs.Numbers.{largest_minimum};
ghost use Rattle.arena.specs.Record.{held_of};
ghost use Rattle.arena.specs.Inner.{lent_of};
ghost use Rattle.calls.specs.Allocate.{chunk_gives};
ghost use Rattle.calls.specs.Inner.{current_pointer};

use arena::Chunk;
use arena::layout::{Allowed, Layout};
use arena::sound::Sound;

// The new pointer in this chunk, which is also the block's offset.
pub fn chunk_gives(minimum: usize, c: Chunk, request: Allowed) -> Option<usize>
    requires { (one_bit minimum ≡ true) × (minimum ≤ largest_minimum) }
    ensures { result ≡ chunk_gives minimum c request.layout.size request.layout.align }
{
    let Layout { size, align } = request.layout;
    let top = rounding::down_to_power(c.pointer, align);
    // Rounded up to both, which is to the larger of the two.
    let aligned = rounding::up_to_power(size, align);
    let needed = rounding::up_to_power(aligned, minimum);
    if top < needed {
        return None;
    }
    let p = top - needed;
    if p < c.start {
        return None;
    }
    Some(p)
}

pub fn current_gives(a: &Sound, request: Allowed) -> Option<usize>
    ensures { result ≡ current_pointer a.now.lent.head.minimum (held_of (lent_of a.now.lent)) request.layout.size request.layout.align }
{
    chunk_gives(a.lent.head.minimum, a.current()?, request)
}

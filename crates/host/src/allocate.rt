// Allocate, for hosts.
ghost use Rattle.std.specs.Prelude.{◌≡◌, length};
ghost use Rattle.calls.specs.Allocate.{allocate_of};
ghost use Rattle.host.specs.Said.{said_given};

use crate::Said;
use arena::Arena;
use calls::allocate::allocate_on;

#[unsafe(no_mangle)]
pub extern "C" fn miravoly_allocate(
    arena: &mut Arena,
    region: &[u8],
    size: usize,
    align: usize,
) -> Said
    ensures value { result ≡ said_given (allocate_of arena.old (length region.now) size align).answer }
    ensures arena_after { arena.new ≡ (allocate_of arena.old (length region.now) size align).arena }
{
    allocate_on(arena, region, size, align).into()
}

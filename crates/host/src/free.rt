// Free, for hosts.
ghost use Rattle.std.specs.Prelude.{◌≡◌};
ghost use Rattle.calls.specs.Free.{free_of};
ghost use Rattle.host.specs.Said.{said_of};

use crate::Said;
use arena::Arena;
use calls::free::free_on;

#[unsafe(no_mangle)]
pub extern "C" fn miravoly_free(arena: &mut Arena, offset: usize, size: usize, align: usize) -> Said
    ensures value { result ≡ said_of (free_of arena.old offset size align).answer }
    ensures arena_after { arena.new ≡ (free_of arena.old offset size align).arena }
{
    free_on(arena, offset, size, align).into()
}

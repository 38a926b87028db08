// Reset, for hosts.
ghost use Rattle.std.specs.Prelude.{◌≡◌};
ghost use Rattle.arena.specs.Creation.{reset_of};
ghost use Rattle.host.specs.Said.{said_of};

use crate::Said;
use arena::Arena;

#[unsafe(no_mangle)]
pub extern "C" fn miravoly_reset(arena: &mut Arena) -> Said
    ensures value { result ≡ said_of (reset_of arena.old).answer }
    ensures arena_after { arena.new ≡ (reset_of arena.old).arena }
{
    arena.reset_on().into()
}

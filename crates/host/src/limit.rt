// The limit calls, for hosts.
ghost use Rattle.std.specs.Prelude.{◌≡◌};
ghost use Rattle.arena.specs.Creation.{set_limit_of, no_limit_of};
ghost use Rattle.host.specs.Said.{said_of};

use crate::Said;
use arena::Arena;

#[unsafe(no_mangle)]
pub extern "C" fn miravoly_set_limit(arena: &mut Arena, limit: usize) -> Said
    ensures value { result ≡ said_of (set_limit_of arena.old limit).answer }
    ensures arena_after { arena.new ≡ (set_limit_of arena.old limit).arena }
{
    arena.set_allocation_limit_on(limit).into()
}

#[unsafe(no_mangle)]
pub extern "C" fn miravoly_no_limit(arena: &mut Arena) -> Said
    ensures value { result ≡ said_of (no_limit_of arena.old).answer }
    ensures arena_after { arena.new ≡ (no_limit_of arena.old).arena }
{
    arena.no_allocation_limit_on().into()
}

// Shrink, for hosts.
ghost use Rattle.std.specs.Prelude.{◌≡◌, length};
ghost use Rattle.calls.specs.Shrink.{shrink_of, shrink_bytes};
ghost use Rattle.host.specs.Said.{said_given};

use crate::Said;
use arena::Arena;
use reshape::shrink::shrink_on;

#[unsafe(no_mangle)]
pub extern "C" fn miravoly_shrink(
    arena: &mut Arena,
    region: &mut [u8],
    offset: usize,
    old: usize,
    old_align: usize,
    new: usize,
    new_align: usize,
) -> Said
    ensures value { result ≡ said_given (shrink_of arena.old (length region.old) offset old old_align new new_align).answer }
    ensures arena_after { arena.new ≡ (shrink_of arena.old (length region.old) offset old old_align new new_align).arena }
    ensures region_after { region.new ≡ shrink_bytes arena.old region.old offset old old_align new new_align }
{
    shrink_on(arena, region, offset, old, old_align, new, new_align).into()
}

// Copy in and fill, for hosts.
ghost use Rattle.std.specs.Prelude.{◌≡◌, length};
ghost use Rattle.calls.specs.Allocate.{allocate_of};
ghost use Rattle.calls.specs.Write.{copy_in_bytes, fill_bytes};
ghost use Rattle.host.specs.Said.{said_given};

use crate::Said;
use arena::Arena;
use calls::write::{copy_in_on, fill_in_on};

#[unsafe(no_mangle)]
pub extern "C" fn miravoly_copy_in(
    arena: &mut Arena,
    region: &mut [u8],
    source: &[u8],
    align: usize,
) -> Said
    ensures value { result ≡ said_given (allocate_of arena.old (length region.old) (length source.now) align).answer }
    ensures arena_after { arena.new ≡ (allocate_of arena.old (length region.old) (length source.now) align).arena }
    ensures region_after { region.new ≡ copy_in_bytes arena.old region.old source.now align }
{
    copy_in_on(arena, region, source, align).into()
}

#[unsafe(no_mangle)]
pub extern "C" fn miravoly_fill(
    arena: &mut Arena,
    region: &mut [u8],
    size: usize,
    align: usize,
    value: u8,
) -> Said
    ensures value { result ≡ said_given (allocate_of arena.old (length region.old) size align).answer }
    ensures arena_after { arena.new ≡ (allocate_of arena.old (length region.old) size align).arena }
    ensures region_after { region.new ≡ fill_bytes arena.old region.old size align value }
{
    fill_in_on(arena, region, size, align, value).into()
}

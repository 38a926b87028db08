// Resize, for hosts.
ghost use Rattle.std.specs.Prelude.{◌≡◌, length};
ghost use Rattle.calls.specs.Resize.{resize_of, resize_bytes};
ghost use Rattle.host.specs.Said.{said_given};

use crate::Said;
use arena::Arena;
use reshape::resize::resize_on;

#[unsafe(no_mangle)]
pub extern "C" fn miravoly_resize(
    arena: &mut Arena,
    region: &mut [u8],
    offset: usize,
    old: usize,
    align: usize,
    new: usize,
) -> Said
    ensures value { result ≡ said_given (resize_of arena.old (length region.old) offset old align new).answer }
    ensures arena_after { arena.new ≡ (resize_of arena.old (length region.old) offset old align new).arena }
    ensures region_after { region.new ≡ resize_bytes arena.old region.old offset old align new }
{
    resize_on(arena, region, offset, old, align, new).into()
}

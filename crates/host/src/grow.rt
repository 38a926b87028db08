// Grow, for hosts.
ghost use Rattle.std.specs.Prelude.{◌≡◌, length};
ghost use Rattle.calls.specs.Grow.{grow_of, grow_bytes, grow_zeroed_bytes};
ghost use Rattle.host.specs.Said.{said_given};

use crate::Said;
use arena::Arena;
use reshape::grow::{grow_on, grow_zeroed_on};

#[unsafe(no_mangle)]
pub extern "C" fn miravoly_grow(
    arena: &mut Arena,
    region: &mut [u8],
    offset: usize,
    old: usize,
    old_align: usize,
    new: usize,
    new_align: usize,
) -> Said
    ensures value { result ≡ said_given (grow_of arena.old (length region.old) offset old old_align new new_align).answer }
    ensures arena_after { arena.new ≡ (grow_of arena.old (length region.old) offset old old_align new new_align).arena }
    ensures region_after { region.new ≡ grow_bytes arena.old region.old offset old old_align new new_align }
{
    grow_on(arena, region, offset, old, old_align, new, new_align).into()
}

#[unsafe(no_mangle)]
pub extern "C" fn miravoly_grow_zeroed(
    arena: &mut Arena,
    region: &mut [u8],
    offset: usize,
    old: usize,
    old_align: usize,
    new: usize,
    new_align: usize,
) -> Said
    ensures value { result ≡ said_given (grow_of arena.old (length region.old) offset old old_align new new_align).answer }
    ensures arena_after { arena.new ≡ (grow_of arena.old (length region.old) offset old old_align new new_align).arena }
    ensures region_after { region.new ≡ grow_zeroed_bytes arena.old region.old offset old old_align new new_align }
{
    grow_zeroed_on(arena, region, offset, old, old_align, new, new_align).into()
}

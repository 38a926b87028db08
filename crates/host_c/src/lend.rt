// Lending a block, for hosts: where the block's bytes are, for the host to slice. `calls::lend` lends the bytes themselves.
ghost use Rattle.std.specs.Prelude.{◌≡◌, length};
ghost use Rattle.calls.specs.Write.{lend_of};
ghost use Rattle.host.specs.Said.{said_part};

use arena::Arena;
use host::SaidPart;

#[unsafe(no_mangle)]
pub extern "C" fn miravoly_lend(
    arena: &Arena,
    region: &[u8],
    offset: usize,
    size: usize,
    align: usize,
) -> SaidPart
    ensures { result ≡ said_part (lend_of arena.now (length region.now) offset size align) offset size }
{
    host::lend::miravoly_lend(arena, region, offset, size, align)
}

// The walk: each held chunk's bytes from pointer to end, newest first.
ghost use Rattle.std.specs.Prelude.{◌≡◌, length};
ghost use Rattle.host.specs.Walk.{step_of};

use arena::Arena;
use host::SaidStep;

#[unsafe(no_mangle)]
pub extern "C" fn miravoly_walk(arena: &Arena, region: &[u8], index: usize) -> SaidStep
    ensures { result ≡ step_of arena.now (length region.now) index }
{
    host::walk::miravoly_walk(arena, region, index)
}

// Creation, for hosts: whatever stands in the record that is lent, a new one is stored there.
ghost use Rattle.std.specs.Prelude.{◌≡◌};
ghost use Rattle.arena.specs.Creation.{created_of};
ghost use Rattle.host.specs.Said.{said_of};

use crate::Said;
use arena::Arena;

#[unsafe(no_mangle)]
pub extern "C" fn miravoly_create(
    arena: &mut Arena,
    region: usize,
    minimum: usize,
    capacity: usize,
) -> Said
    ensures value { result ≡ said_of (created_of region minimum capacity).answer }
    ensures arena_after { arena.new ≡ (created_of region minimum capacity).arena }
{
    let got = Arena::with_min_align_and_capacity(region, minimum, capacity);
    *arena = got.arena;
    got.answer.into()
}

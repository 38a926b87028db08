// Free, in place.
ghost use Rattle.std.specs.Prelude.{◌≡◌, true};
ghost use Rattle.arena.specs.Sound.{sound_of};
ghost use Rattle.calls.specs.Free.{free_of};
ghost use Rattle.host.specs.Said.{said_of};
ghost use Rattle.fast.specs.Parts.{parts_of};

use crate::parts::{lent_in, make_in_parts, sound_in};
use arena::Refusal;
use arena::layout::{Block, Layout};
use arena::sound::is_sound;
use calls::free::free_ended;
use host::Said;

#[unsafe(no_mangle)]
pub extern "C" fn miravoly_sound_free(
    head: &mut [usize; 5],
    starts: &mut [usize; 32],
    sizes: &mut [usize; 32],
    pointers: &mut [usize; 32],
    offset: usize,
    size: usize,
    align: usize,
) -> Said
    requires { sound_of (parts_of head.old starts.old sizes.old pointers.old) ≡ true }
    ensures value { result ≡ said_of (free_of (parts_of head.old starts.old sizes.old pointers.old) offset size align).answer }
    ensures pointers_after { parts_of head.new starts.new sizes.new pointers.new ≡ (free_of (parts_of head.old starts.old sizes.old pointers.old) offset size align).arena }
{
    let sound = sound_in(head, starts, sizes, pointers);
    let layout = Layout { size, align };
    let got = free_ended(&sound, Block { offset, layout });
    make_in_parts(head, starts, sizes, pointers, got.change);
    got.answer.into()
}

#[unsafe(no_mangle)]
pub extern "C" fn miravoly_fast_free(
    head: &mut [usize; 5],
    starts: &mut [usize; 32],
    sizes: &mut [usize; 32],
    pointers: &mut [usize; 32],
    offset: usize,
    size: usize,
    align: usize,
) -> Said
    ensures value { result ≡ said_of (free_of (parts_of head.old starts.old sizes.old pointers.old) offset size align).answer }
    ensures pointers_after { parts_of head.new starts.new sizes.new pointers.new ≡ (free_of (parts_of head.old starts.old sizes.old pointers.old) offset size align).arena }
{
    if !is_sound(&lent_in(head, starts, sizes, pointers)) {
        return Refusal::State.into();
    }
    miravoly_sound_free(head, starts, sizes, pointers, offset, size, align)
}

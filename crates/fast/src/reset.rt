// Reset, in place.
ghost use Rattle.std.specs.Prelude.{◌≡◌, true};
ghost use Rattle.arena.specs.Creation.{reset_of};
ghost use Rattle.arena.specs.Sound.{sound_of};
ghost use Rattle.host.specs.Said.{said_of};
ghost use Rattle.fast.specs.Parts.{parts_of};

use crate::parts::{lent_in, make_in_parts};
use arena::Refusal;
use arena::change::Change;
use arena::sound::is_sound;
use host::Said;

#[unsafe(no_mangle)]
pub extern "C" fn miravoly_sound_reset(
    head: &mut [usize; 5],
    starts: &mut [usize; 32],
    sizes: &mut [usize; 32],
    pointers: &mut [usize; 32],
) -> Said
    requires { sound_of (parts_of head.old starts.old sizes.old pointers.old) ≡ true }
    ensures value { result ≡ said_of (reset_of (parts_of head.old starts.old sizes.old pointers.old)).answer }
    ensures pointers_after { parts_of head.new starts.new sizes.new pointers.new ≡ (reset_of (parts_of head.old starts.old sizes.old pointers.old)).arena }
{
    make_in_parts(head, starts, sizes, pointers, Change::Kept);
    Ok(()).into()
}

#[unsafe(no_mangle)]
pub extern "C" fn miravoly_fast_reset(
    head: &mut [usize; 5],
    starts: &mut [usize; 32],
    sizes: &mut [usize; 32],
    pointers: &mut [usize; 32],
) -> Said
    ensures value { result ≡ said_of (reset_of (parts_of head.old starts.old sizes.old pointers.old)).answer }
    ensures pointers_after { parts_of head.new starts.new sizes.new pointers.new ≡ (reset_of (parts_of head.old starts.old sizes.old pointers.old)).arena }
{
    if !is_sound(&lent_in(head, starts, sizes, pointers)) {
        return Refusal::State.into();
    }
    miravoly_sound_reset(head, starts, sizes, pointers)
}

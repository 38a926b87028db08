// Cancel, in place.
ghost use Rattle.std.specs.Prelude.{◌≡◌, true};
ghost use Rattle.arena.specs.Sound.{sound_of};
ghost use Rattle.calls.specs.Token.{token_of, cancel_of};
ghost use Rattle.host.specs.Said.{said_of};
ghost use Rattle.fast.specs.Parts.{parts_of};

use crate::parts::{lent_in, make_in_parts, sound_in};
use arena::Refusal;
use arena::sound::is_sound;
use calls::Token;
use host::Said;
use takeback::tokens::cancel_ended;

#[unsafe(no_mangle)]
pub extern "C" fn miravoly_sound_cancel(
    head: &mut [usize; 5],
    starts: &mut [usize; 32],
    sizes: &mut [usize; 32],
    pointers: &mut [usize; 32],
    offset: usize,
    count: usize,
    pointer: usize,
) -> Said
    requires { sound_of (parts_of head.old starts.old sizes.old pointers.old) ≡ true }
    ensures value { result ≡ said_of (cancel_of (parts_of head.old starts.old sizes.old pointers.old) offset (token_of count pointer)).answer }
    ensures pointers_after { parts_of head.new starts.new sizes.new pointers.new ≡ (cancel_of (parts_of head.old starts.old sizes.old pointers.old) offset (token_of count pointer)).arena }
{
    let token = Token { count, pointer };
    let sound = sound_in(head, starts, sizes, pointers);
    let got = cancel_ended(&sound, offset, token);
    make_in_parts(head, starts, sizes, pointers, got.change);
    got.answer.into()
}

#[unsafe(no_mangle)]
pub extern "C" fn miravoly_fast_cancel(
    head: &mut [usize; 5],
    starts: &mut [usize; 32],
    sizes: &mut [usize; 32],
    pointers: &mut [usize; 32],
    offset: usize,
    count: usize,
    pointer: usize,
) -> Said
    ensures value { result ≡ said_of (cancel_of (parts_of head.old starts.old sizes.old pointers.old) offset (token_of count pointer)).answer }
    ensures pointers_after { parts_of head.new starts.new sizes.new pointers.new ≡ (cancel_of (parts_of head.old starts.old sizes.old pointers.old) offset (token_of count pointer)).arena }
{
    if !is_sound(&lent_in(head, starts, sizes, pointers)) {
        return Refusal::State.into();
    }
    miravoly_sound_cancel(head, starts, sizes, pointers, offset, count, pointer)
}

// Allocate with a token, in place.
ghost use Rattle.std.specs.Prelude.{◌≡◌, true, length};
ghost use Rattle.arena.specs.Sound.{sound_of};
ghost use Rattle.calls.specs.Token.{with_token_of};
ghost use Rattle.host.specs.Said.{said_token};
ghost use Rattle.fast.specs.Parts.{head_of, parts_of};

use crate::parts::{lent_in, make_in_parts, sound_in};
use arena::layout::Layout;
use calls::Token;
use calls::refusals::lent_answer;
use host::SaidToken;
use host::answers::said_token;
use takeback::tokens::allocate_with_token_placed;

#[unsafe(no_mangle)]
pub extern "C" fn miravoly_sound_allocate_with_token(
    head: &mut [usize; 5],
    starts: &mut [usize; 32],
    sizes: &mut [usize; 32],
    pointers: &mut [usize; 32],
    size: usize,
    align: usize,
) -> SaidToken
    requires { sound_of (parts_of head.old starts.old sizes.old pointers.old) ≡ true }
    ensures value { result ≡ said_token (with_token_of (parts_of head.old starts.old sizes.old pointers.old) (head_of head.old).region size align) }
    ensures pointers_after { parts_of head.new starts.new sizes.new pointers.new ≡ (with_token_of (parts_of head.old starts.old sizes.old pointers.old) (head_of head.old).region size align).arena }
{
    let sound = sound_in(head, starts, sizes, pointers);
    let got = allocate_with_token_placed(&sound, Layout { size, align });
    make_in_parts(head, starts, sizes, pointers, got.change);
    said_token(got.answer, got.token)
}

#[unsafe(no_mangle)]
pub extern "C" fn miravoly_fast_allocate_with_token(
    head: &mut [usize; 5],
    starts: &mut [usize; 32],
    sizes: &mut [usize; 32],
    pointers: &mut [usize; 32],
    region: &[u8],
    size: usize,
    align: usize,
) -> SaidToken
    ensures value { result ≡ said_token (with_token_of (parts_of head.old starts.old sizes.old pointers.old) (length region.now) size align) }
    ensures pointers_after { parts_of head.new starts.new sizes.new pointers.new ≡ (with_token_of (parts_of head.old starts.old sizes.old pointers.old) (length region.now) size align).arena }
{
    if let Err(r) = lent_answer(lent_in(head, starts, sizes, pointers), region.len()) {
        return said_token(Err(r), Token::default());
    }
    miravoly_sound_allocate_with_token(head, starts, sizes, pointers, size, align)
}

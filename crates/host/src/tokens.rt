// Allocate with a token, and cancel, for hosts. A token goes as its two numbers.
ghost use Rattle.std.specs.Prelude.{◌≡◌, length};
ghost use Rattle.calls.specs.Token.{token_of, with_token_of, cancel_of};
ghost use Rattle.host.specs.Said.{said_of, said_token};

use crate::answers::said_token;
use crate::{Said, SaidToken};
use arena::Arena;
use calls::Token;
use takeback::tokens::{allocate_with_token_on, cancel_on};

#[unsafe(no_mangle)]
pub extern "C" fn miravoly_allocate_with_token(
    arena: &mut Arena,
    region: &[u8],
    size: usize,
    align: usize,
) -> SaidToken
    ensures value { result ≡ said_token (with_token_of arena.old (length region.now) size align) }
    ensures arena_after { arena.new ≡ (with_token_of arena.old (length region.now) size align).arena }
{
    let (answer, token) = allocate_with_token_on(arena, region, size, align);
    said_token(answer, token)
}

#[unsafe(no_mangle)]
pub extern "C" fn miravoly_cancel(
    arena: &mut Arena,
    offset: usize,
    count: usize,
    pointer: usize,
) -> Said
    ensures value { result ≡ said_of (cancel_of arena.old offset (token_of count pointer)).answer }
    ensures arena_after { arena.new ≡ (cancel_of arena.old offset (token_of count pointer)).arena }
{
    cancel_on(arena, offset, Token { count, pointer }).into()
}

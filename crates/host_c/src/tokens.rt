// Allocate with a token, and cancel, for hosts. A token goes as its two numbers.
ghost use Rattle.std.specs.Prelude.{◌≡◌, length};
ghost use Rattle.calls.specs.Token.{token_of, with_token_of, cancel_of};
ghost use Rattle.host.specs.Said.{said_of, said_token};

use arena::Arena;
use host::{Said, SaidToken};

#[unsafe(no_mangle)]
pub extern "C" fn miravoly_allocate_with_token(
    arena: &mut Arena,
    region: &[u8],
    size: usize,
    align: usize,
) -> SaidToken
    ensures value { result ≡ said_token (with_token_of arena.old (length region.now) size align) }
    ensures arena_after { arena.new ≡ (with_token_of arena.old (length region.now) size align).arena }
{
    host::tokens::miravoly_allocate_with_token(arena, region, size, align)
}

#[unsafe(no_mangle)]
pub extern "C" fn miravoly_cancel(
    arena: &mut Arena,
    offset: usize,
    count: usize,
    pointer: usize,
) -> Said
    ensures value { result ≡ said_of (cancel_of arena.old offset (token_of count pointer)).answer }
    ensures arena_after { arena.new ≡ (cancel_of arena.old offset (token_of count pointer)).arena }
{
    host::tokens::miravoly_cancel(arena, offset, count, pointer)
}

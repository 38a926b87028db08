// Allocate with a token, and cancel (`RewindGuard` in the Rust): a token says what the arena was before its block.
ghost use Rattle.std.specs.Prelude.{◌≡◌, None, Some, length};
ghost use Rattle.arena.specs.Record.{held_of, holding};
ghost use Rattle.arena.specs.Inner.{lent_of};
ghost use Rattle.calls.specs.Allocate.{given};
ghost use Rattle.calls.specs.Token.{token_for, token_given, with_token_of, bad_token, rewound, cancel_of};
ghost use Rattle.calls.specs.Inner.{with_token, TokenPlacedBy, AnsweredBy, ChangedBy};

use arena::change::Change;
use arena::layout::Layout;
use arena::sound::Sound;
use arena::{Arena, Outcome, Refusal};
use calls::allocate::allocate_placed;
use calls::refusals::lent_sound;
use calls::{Answered, Token, TokenAllocation, TokenPlaced};

// No From: it is one of two tokens that a record says, the one before an allocation.
fn token_for(a: &Sound) -> Token
    ensures { result ≡ token_for (held_of (lent_of a.now.lent)) }
{
    let Some(c) = a.current() else {
        return Token::default();
    };
    Token {
        count: a.lent.head.count,
        pointer: c.pointer,
    }
}

// A refused allocation says 0 and 0.
fn token_given(answer: Result<usize, Refusal>, token: Token) -> Token
    ensures { result ≡ token_given answer token }
{
    match answer {
        Ok(_) => token,
        Err(_) => Token::default(),
    }
}

// In the record's own region.
pub fn allocate_with_token_placed(a: &Sound, layout: Layout) -> TokenPlaced
    ensures { TokenPlacedBy (λ r. with_token_of r r.head.region layout.size layout.align) (lent_of a.now.lent) result }
{
    let before = token_for(a);
    let got = allocate_placed(a, layout);
    TokenPlaced {
        answer: got.answer,
        token: token_given(got.answer, before),
        change: got.change,
    }
}

// The frame and the arguments as allocate's.
pub fn allocate_with_token_on(
    a: &mut Arena,
    region: &[u8],
    size: usize,
    align: usize,
) -> (Result<usize, Refusal>, Token)
    ensures value { result.0 ≡ (with_token_of a.old (length region.now) size align).answer }
    ensures token { result.1 ≡ (with_token_of a.old (length region.now) size align).token }
    ensures arena_after { a.new ≡ (with_token_of a.old (length region.now) size align).arena }
{
    let sound = match lent_sound(a.lent(), region.len()) {
        Ok(sound) => sound,
        Err(r) => return (Err(r), Token::default()),
    };
    let got = allocate_with_token_placed(&sound, Layout { size, align });
    a.change(got.change);
    (got.answer, got.token)
}

pub fn allocate_with_token(a: Arena, region: &[u8], size: usize, align: usize) -> TokenAllocation
    ensures { result ≡ with_token_of a (length region.now) size align }
{
    let mut arena = a;
    let (answer, token) = allocate_with_token_on(&mut arena, region, size, align);
    TokenAllocation {
        answer,
        token,
        arena,
    }
}

// With a smaller count the chunk was taken for the block, and the recorded pointer is not looked at.
pub fn is_bad_token(a: &Sound, offset: usize, token: Token) -> bool
    ensures { result ≡ bad_token a.now.lent.head.minimum (held_of (lent_of a.now.lent)) offset token }
{
    let h = a.lent.head;
    if h.count < token.count {
        return true;
    }
    if token.count != h.count {
        return false;
    }
    let Some(c) = a.current() else {
        return false;
    };
    if offset != c.pointer {
        return false;
    }
    if token.pointer < c.pointer {
        return true;
    }
    if c.start + c.size < token.pointer {
        return true;
    }
    !rounding::is_multiple_of_power(token.pointer, h.minimum)
}

// Only a block at the current pointer can be taken back.
fn rewind(a: &Sound, offset: usize, token: Token) -> Change
    ensures { ChangedBy (λ r. holding r.head (rewound (held_of r) offset token)) (lent_of a.now.lent) result }
{
    let Some(c) = a.current() else {
        return Change::Same;
    };
    if offset != c.pointer {
        return Change::Same;
    }
    if token.count == a.lent.head.count {
        return Change::Moved(token.pointer);
    }
    Change::Moved(c.start + c.size)
}

pub fn cancel_ended(a: &Sound, offset: usize, token: Token) -> Answered<()>
    ensures { AnsweredBy (λ r. cancel_of r offset token) (lent_of a.now.lent) result }
{
    if is_bad_token(a, offset, token) {
        return Answered::refused(Refusal::Token);
    }
    Answered {
        answer: Ok(()),
        change: rewind(a, offset, token),
    }
}

pub fn cancel_on(a: &mut Arena, offset: usize, token: Token) -> Result<(), Refusal>
    ensures value { result ≡ (cancel_of a.old offset token).answer }
    ensures arena_after { a.new ≡ (cancel_of a.old offset token).arena }
{
    let Some(sound) = a.sound() else {
        return Err(Refusal::State);
    };
    let ended = cancel_ended(&sound, offset, token);
    a.change(ended.change);
    ended.answer
}

pub fn cancel(a: Arena, offset: usize, token: Token) -> Outcome<()>
    ensures { result ≡ cancel_of a offset token }
{
    let mut arena = a;
    let answer = cancel_on(&mut arena, offset, token);
    Outcome { answer, arena }
}

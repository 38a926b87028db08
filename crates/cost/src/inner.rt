// Turns of calls on a record that was found sound once and is changed in place. Each tests what its call tests of its numbers.
//
// What needs a block is given one in the same turn, so a second call with its tests is its turn less that of the first call, `allocate` or
// `allocate_with_token` with nothing after it. `*_tests` go as far as the tests, so the work that is left once they are done is the call's turn less those.
//
// A second call names the block by numbers of the list, and by the offset that was answered, changed by a number of the list that is 0: that it is the
// block at the pointer is not known when the program is compiled.
ghost use Rattle.std.specs.Prelude.{◌≡◌, true, length};
ghost use Rattle.arena.specs.Sound.{sound_of};
ghost use Rattle.arena.specs.Inner.{lent_of};
ghost use Rattle.cost.specs.Turns.{Keeps};

use arena::change::{Change, make};
use arena::layout::{Block, Layout};
use arena::lent::Lent;
use arena::sound::Sound;
use arena::{Arena, Refusal};
use calls::allocate::allocate_placed;
use calls::block::is_last_block;
use calls::free::free_ended;
use calls::refusals::{block_answer, lent_sound};
use calls::{Answered, Token};
use reshape::grow::grow_placed;
use reshape::shrink::shrink_placed;
use takeback::tokens::{allocate_with_token_placed, cancel_ended, is_bad_token};

// The calls of a turn: the first alone, or a second one after it, whole or as far as its tests.
#[derive(Clone, Copy)]
pub enum Calls {
    Allocate,
    Free,
    Grow,
    Shrink,
    Token,
    Cancel,
    Reset,
    FreeTests,
    GrowTests,
    ShrinkTests,
    CancelTests,
}

// The numbers of a turn: what it asks for first, what its second call names and asks for, and nothing, which is 0.
#[derive(Clone, Copy)]
pub struct Numbers {
    pub first: Layout,
    pub old: Layout,
    pub new: Layout,
    pub nothing: usize,
}

fn allocate(a: &Sound, n: &Numbers) -> Answered<usize>
    ensures { Keeps (lent_of a.now.lent) result.change }
{
    allocate_placed(a, n.first)
}

fn allocate_with_token(a: &Sound, n: &Numbers) -> Answered<(usize, Token)>
    ensures { Keeps (lent_of a.now.lent) result.change }
{
    let got = allocate_with_token_placed(a, n.first);
    Answered {
        answer: got.answer.map(|at| (at, got.token)),
        change: got.change,
    }
}

// The block of a first call as a second one names it.
fn named_block(at: usize, n: &Numbers) -> Block {
    Block {
        offset: at ^ n.nothing,
        layout: n.old,
    }
}

fn free(a: &Sound, _region: &mut [u8], at: usize, n: &Numbers) -> Answered<()>
    ensures { Keeps (lent_of a.now.lent) result.change }
{
    free_ended(a, named_block(at, n))
}

fn grow(a: &Sound, region: &mut [u8], at: usize, n: &Numbers) -> Answered<usize>
    requires { length region.old ≡ a.now.lent.head.region }
    ensures { Keeps (lent_of a.now.lent) result.change }
{
    grow_placed(a, region, named_block(at, n), n.new)
}

fn shrink(a: &Sound, region: &mut [u8], at: usize, n: &Numbers) -> Answered<usize>
    requires { length region.old ≡ a.now.lent.head.region }
    ensures { Keeps (lent_of a.now.lent) result.change }
{
    shrink_placed(a, region, named_block(at, n), n.new)
}

fn cancel(a: &Sound, _region: &mut [u8], given: (usize, Token), n: &Numbers) -> Answered<()>
    ensures { Keeps (lent_of a.now.lent) result.change }
{
    cancel_ended(a, given.0 ^ n.nothing, named(given.1, n))
}

// A token as a second call names it.
fn named(token: Token, n: &Numbers) -> Token {
    Token {
        count: token.count ^ n.nothing,
        pointer: token.pointer ^ n.nothing,
    }
}

fn reset<T: Copy>(_a: &Sound, _region: &mut [u8], _given: T, _n: &Numbers) -> Answered<()>
    ensures { Keeps (lent_of _a.now.lent) result.change }
{
    Answered {
        answer: Ok(()),
        change: Change::Kept,
    }
}

// A second call that goes no further than its tests; the record stays as it is.
fn tested(_a: &Sound, passes: bool) -> Answered<()>
    ensures { Keeps (lent_of _a.now.lent) result.change }
{
    Answered {
        answer: passes.then_some(()).ok_or(Refusal::Block),
        change: Change::Same,
    }
}

fn nothing<T: Copy>(a: &Sound, _region: &mut [u8], _given: T, _n: &Numbers) -> Answered<()>
    ensures { Keeps (lent_of a.now.lent) result.change }
{
    tested(a, true)
}

fn free_tests(a: &Sound, _region: &mut [u8], at: usize, n: &Numbers) -> Answered<()>
    ensures { Keeps (lent_of a.now.lent) result.change }
{
    tested(a, block_answer(a, named_block(at, n)).is_ok())
}

// Of a call in place, where the alignment stays.
fn grow_tests(a: &Sound, _region: &mut [u8], at: usize, n: &Numbers) -> Answered<()>
    ensures { Keeps (lent_of a.now.lent) result.change }
{
    tested(
        a,
        n.old.size <= n.new.size
            && n.new.align == n.old.align
            && is_last_block(a, named_block(at, n)),
    )
}

fn shrink_tests(a: &Sound, _region: &mut [u8], at: usize, n: &Numbers) -> Answered<()>
    ensures { Keeps (lent_of a.now.lent) result.change }
{
    tested(
        a,
        n.new.size <= n.old.size
            && n.new.align == n.old.align
            && is_last_block(a, named_block(at, n)),
    )
}

fn cancel_tests(a: &Sound, _region: &mut [u8], given: (usize, Token), n: &Numbers) -> Answered<()>
    ensures { Keeps (lent_of a.now.lent) result.change }
{
    tested(a, !is_bad_token(a, given.0 ^ n.nothing, named(given.1, n)))
}

// A function of its own: one with a loop cannot build a value that says of itself that it is sound.
fn known<'a>(lent: Lent<'a>) -> Sound<'a>
    requires { sound_of (lent_of lent) ≡ true }
    ensures { result.lent ≡ lent.entry }
{
    Sound { lent }
}

// How many turns were served before one was refused: each makes the change of a first call, and then that of a second one, which is told what the first gave.
fn turns<T: Copy, U: Copy, F, S>(
    a: &Sound,
    region: &mut [u8],
    numbers: &[Numbers],
    first: F,
    second: S,
) -> usize
where
    F: Fn(&Sound, &Numbers) -> Answered<T>,
    S: Fn(&Sound, &mut [u8], T, &Numbers) -> Answered<U>,
    requires lent { length region.old ≡ a.now.lent.head.region }
    requires first_served { F.IsAlwaysCallable first }
    requires first_keeps { (s : _) (n : _) (got : _) → F.post first s n got → Keeps (lent_of s.now.lent) got.change }
    requires second_served { (s : _) (r : _) (given : _) (n : _) → length r.now ≡ s.now.lent.head.region → S.pre second s r given n }
    requires second_keeps { (s : _) (r : _) (given : _) (n : _) (got : _) (q : _) → S.post second s r given n got q → Keeps (lent_of s.now.lent) got.change }
{
    let mut head = a.lent.head;
    let mut starts = *a.lent.starts;
    let mut sizes = *a.lent.sizes;
    let mut pointers = *a.lent.pointers;
    for (turn, n) in numbers.iter().enumerate() {
        let got = first(
            &known(Lent {
                head,
                starts: &starts,
                sizes: &sizes,
                pointers: &pointers,
            }),
            n,
        );
        let Ok(given) = got.answer else {
            return turn;
        };
        head = make(head, &mut starts, &mut sizes, &mut pointers, got.change);
        let after = second(
            &known(Lent {
                head,
                starts: &starts,
                sizes: &sizes,
                pointers: &pointers,
            }),
            region,
            given,
            n,
        );
        if after.answer.is_err() {
            return turn;
        }
        head = make(head, &mut starts, &mut sizes, &mut pointers, after.change);
    }
    numbers.len()
}

// The one test of the record and its region.
pub fn served(calls: Calls, a: Arena, region: &mut [u8], numbers: &[Numbers]) -> usize {
    let Ok(a) = lent_sound(a.lent(), region.len()) else {
        return 0;
    };
    match calls {
        Calls::Allocate => turns(&a, region, numbers, allocate, nothing),
        Calls::Free => turns(&a, region, numbers, allocate, free),
        Calls::Grow => turns(&a, region, numbers, allocate, grow),
        Calls::Shrink => turns(&a, region, numbers, allocate, shrink),
        Calls::Token => turns(&a, region, numbers, allocate_with_token, nothing),
        Calls::Cancel => turns(&a, region, numbers, allocate_with_token, cancel),
        Calls::Reset => turns(&a, region, numbers, allocate, reset),
        Calls::FreeTests => turns(&a, region, numbers, allocate, free_tests),
        Calls::GrowTests => turns(&a, region, numbers, allocate, grow_tests),
        Calls::ShrinkTests => turns(&a, region, numbers, allocate, shrink_tests),
        Calls::CancelTests => turns(&a, region, numbers, allocate_with_token, cancel_tests),
    }
}

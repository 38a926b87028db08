// The tests that calls share, in the order of the refusals' numbers. Each function answers the first refusal that applies, or that none does. They only read, so
// the record is lent. And what an inner form answers that refuses.
ghost use Rattle.std.specs.Prelude.{◌≡◌, IfOk, IfErr, Err};
ghost use Rattle.arena.specs.declared.change.Change.TheVariants.{Same};
ghost use Rattle.arena.specs.Inner.{lent_of};
ghost use Rattle.calls.specs.Inner.{lent_tests, block_tests, change_tests, first_of};

use crate::Answered;
use crate::block::is_acceptable;
use arena::change::Change;
use arena::layout::{Block, Layout};
use arena::lent::{Inside, Lent};
use arena::sound::{Sound, is_allowed_align};
use arena::{Arena, Refusal};

// STATE and REGION, of a call that is lent bytes, which goes on with a record that is known to be sound.
pub fn lent_sound<'a>(a: Lent<'a>, lent: usize) -> Result<Sound<'a>, Refusal>
    ensures ok { IfOk result (λ s. (s.lent ≡ a.entry) × (lent ≡ a.entry.head.region)) }
    ensures err { IfErr result (λ r. first_of (lent_tests (lent_of a.entry) lent) ≡ Err r) }
{
    let Some(sound) = a.sound() else {
        return Err(Refusal::State);
    };
    if lent != a.head.region {
        return Err(Refusal::Region);
    }
    Ok(sound)
}

// The same answer alone.
pub fn lent_answer(a: Lent, lent: usize) -> Result<(), Refusal>
    ensures { result ≡ first_of (lent_tests (lent_of a.entry) lent) }
{
    lent_sound(a, lent)?;
    Ok(())
}

// SIZE, ALIGN and BLOCK, of a call that names a block.
pub fn block_answer(a: &Sound, block: Block) -> Result<(), Refusal>
    ensures { result ≡ first_of (block_tests (lent_of a.now.lent) block.offset block.layout.size block.layout.align) }
{
    if Arena::MOST < block.layout.size {
        return Err(Refusal::Size);
    }
    if !is_allowed_align(block.layout.align) {
        return Err(Refusal::Align);
    }
    if !is_acceptable(&Inside { lent: a.lent }, block) {
        return Err(Refusal::Block);
    }
    Ok(())
}

// SIZE, ALIGN, BLOCK and DIRECTION, of a call that asks for another size or alignment of such a block.
pub fn change_answer(a: &Sound, block: Block, new: Layout, backwards: bool) -> Result<(), Refusal>
    ensures { result ≡ first_of (change_tests (lent_of a.now.lent) block.offset block.layout.size block.layout.align new.size new.align backwards) }
{
    if Arena::MOST < block.layout.size {
        return Err(Refusal::Size);
    }
    if Arena::MOST < new.size {
        return Err(Refusal::Size);
    }
    if !is_allowed_align(block.layout.align) {
        return Err(Refusal::Align);
    }
    if !is_allowed_align(new.align) {
        return Err(Refusal::Align);
    }
    if !is_acceptable(&Inside { lent: a.lent }, block) {
        return Err(Refusal::Block);
    }
    if backwards {
        return Err(Refusal::Direction);
    }
    Ok(())
}

impl<T> Answered<T> {
    // The record stays as it is.
    pub fn refused(r: Refusal) -> Self
        ensures { result ≡ record { answer = Err r; change = Same } }
    {
        Answered {
            answer: Err(r),
            change: Change::Same,
        }
    }
}

// Free (`dealloc` in the Rust). Only the bytes of the block at the current pointer can be given out again; those of any other block wait for a reset.
ghost use Rattle.std.specs.Prelude.{◌≡◌, ◌+◌, ◌≤◌};
ghost use Rattle.arena.specs.Record.{held_of, holding};
ghost use Rattle.arena.specs.Inner.{lent_of};
ghost use Rattle.calls.specs.Free.{freed, free_of};
ghost use Rattle.calls.specs.Inner.{AnsweredBy, ChangedBy};

use crate::Answered;
use crate::block::is_at_pointer;
use crate::refusals::block_answer;
use arena::change::Change;
use arena::layout::{Block, Layout};
use arena::sound::Sound;
use arena::{Arena, Outcome, Refusal};

// The work, of a block that lies in the region. The pointer goes past the block's own bytes only: what its alignment took beyond them stays unused.
fn free_tested(a: &Sound, offset: usize, size: usize) -> Change
    requires { offset + size ≤ a.now.lent.head.region }
    ensures { ChangedBy (λ r. holding r.head (freed r.head.minimum (held_of r) offset size)) (lent_of a.now.lent) result }
{
    if !is_at_pointer(a, offset) {
        return Change::Same;
    }
    Change::Moved(rounding::up_to_power(offset + size, a.lent.head.minimum))
}

pub fn free_ended(a: &Sound, block: Block) -> Answered<()>
    ensures { AnsweredBy (λ r. free_of r block.offset block.layout.size block.layout.align) (lent_of a.now.lent) result }
{
    if let Err(r) = block_answer(a, block) {
        return Answered::refused(r);
    }
    Answered {
        answer: Ok(()),
        change: free_tested(a, block.offset, block.layout.size),
    }
}

// As `allocate_on`, without a lent region.
pub fn free_on(a: &mut Arena, offset: usize, size: usize, align: usize) -> Result<(), Refusal>
    ensures value { result ≡ (free_of a.old offset size align).answer }
    ensures arena_after { a.new ≡ (free_of a.old offset size align).arena }
{
    let Some(sound) = a.sound() else {
        return Err(Refusal::State);
    };
    let layout = Layout { size, align };
    let ended = free_ended(&sound, Block { offset, layout });
    a.change(ended.change);
    ended.answer
}

pub fn free(a: Arena, offset: usize, size: usize, align: usize) -> Outcome<()>
    ensures { result ≡ free_of a offset size align }
{
    let mut arena = a;
    let answer = free_on(&mut arena, offset, size, align);
    Outcome { answer, arena }
}

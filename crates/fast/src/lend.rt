// Lending a block, in place: where its bytes are.
ghost use Rattle.std.specs.Prelude.{◌≡◌, true, length};
ghost use Rattle.arena.specs.Sound.{sound_of};
ghost use Rattle.calls.specs.Write.{lend_of};
ghost use Rattle.host.specs.Said.{said_part};
ghost use Rattle.fast.specs.Parts.{head_of, parts_of};

use crate::parts::{lent_in, sound_in};
use arena::layout::{Block, Layout};
use calls::refusals::{block_answer, lent_answer};
use host::SaidPart;
use host::lend::part_of;

#[unsafe(no_mangle)]
pub extern "C" fn miravoly_sound_lend<'a>(
    head: &[usize; 5],
    starts: &'a [usize; 32],
    sizes: &'a [usize; 32],
    pointers: &'a [usize; 32],
    offset: usize,
    size: usize,
    align: usize,
) -> SaidPart
    requires { sound_of (parts_of head.now starts.now sizes.now pointers.now) ≡ true }
    ensures { result ≡ said_part (lend_of (parts_of head.now starts.now sizes.now pointers.now) (head_of head.now).region offset size align) offset size }
{
    let sound = sound_in(head, starts, sizes, pointers);
    let layout = Layout { size, align };
    let answer = block_answer(&sound, Block { offset, layout });
    part_of(answer, offset, size)
}

#[unsafe(no_mangle)]
pub extern "C" fn miravoly_fast_lend<'a>(
    head: &[usize; 5],
    starts: &'a [usize; 32],
    sizes: &'a [usize; 32],
    pointers: &'a [usize; 32],
    region: &[u8],
    offset: usize,
    size: usize,
    align: usize,
) -> SaidPart
    ensures { result ≡ said_part (lend_of (parts_of head.now starts.now sizes.now pointers.now) (length region.now) offset size align) offset size }
{
    if let Err(r) = lent_answer(lent_in(head, starts, sizes, pointers), region.len()) {
        return part_of(Err(r), offset, size);
    }
    miravoly_sound_lend(head, starts, sizes, pointers, offset, size, align)
}

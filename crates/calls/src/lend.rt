// Lending a block: its own bytes for writing, exactly those, and a call beside it that says why a block was not lent.
ghost use Rattle.std.specs.Prelude.{◌≡◌, length};
ghost use Rattle.calls.specs.Bytes.{stands_at};
ghost use Rattle.calls.specs.Write.{lend_of, lent_part, lent_from};

use crate::refusals::{block_answer, lent_sound};
use arena::layout::{Block, Layout};
use arena::{Arena, Refusal};

// By the region's length, which is all that the tests read of it.
fn answer_of(a: Arena, lent: usize, block: Block) -> Result<(), Refusal>
    ensures { result ≡ lend_of a lent block.offset block.layout.size block.layout.align }
{
    let sound = lent_sound(a.lent(), lent)?;
    block_answer(&sound, block)
}

// Document 01's own arguments.
pub fn lend_answer(
    a: Arena,
    region: &[u8],
    offset: usize,
    size: usize,
    align: usize,
) -> Result<(), Refusal>
    ensures { result ≡ lend_of a (length region.now) offset size align }
{
    let layout = Layout { size, align };
    answer_of(a, region.len(), Block { offset, layout })
}

pub fn lend<'r>(
    a: Arena,
    region: &'r mut [u8],
    offset: usize,
    size: usize,
    align: usize,
) -> &'r mut [u8]
    ensures result_value { result.now ≡ lent_part (lend_of a (length region.old) offset size align) region.old offset size }
    ensures ref_ptr_value { result.ref_ptr ≡ stands_at region.entry.ref_ptr (lent_from (lend_of a (length region.old) offset size align) offset) }
{
    let layout = Layout { size, align };
    let answer = answer_of(a, region.len(), Block { offset, layout });
    if let Err(_) = answer {
        return &mut region[0..0];
    }
    let end = offset + size;
    &mut region[offset..end]
}

// Lending a block, for hosts: where the block's bytes are, for the host to slice. `calls::lend` lends the bytes themselves.
ghost use Rattle.std.specs.Prelude.{◌≡◌, length};
ghost use Rattle.calls.specs.Write.{lend_of};
ghost use Rattle.host.specs.Said.{said_part};

use crate::SaidPart;
use arena::{Arena, Refusal};
use calls::lend::lend_answer;

pub fn part_of(answer: Result<(), Refusal>, offset: usize, size: usize) -> SaidPart
    ensures { result ≡ said_part answer offset size }
{
    match answer {
        Ok(()) => SaidPart {
            refusal: 0,
            offset,
            length: size,
        },
        Err(r) => SaidPart {
            refusal: r.number(),
            offset: 0,
            length: 0,
        },
    }
}

#[unsafe(no_mangle)]
pub extern "C" fn miravoly_lend(
    arena: &Arena,
    region: &[u8],
    offset: usize,
    size: usize,
    align: usize,
) -> SaidPart
    ensures { result ≡ said_part (lend_of arena.now (length region.now) offset size align) offset size }
{
    let answer = lend_answer(*arena, region, offset, size, align);
    part_of(answer, offset, size)
}

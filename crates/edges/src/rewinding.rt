// Allocate with a token, and cancel.
use crate::case::Case;
use crate::case::Case::{Each, InTurn, Keep};
use crate::case::Kept::{Block, New};
use crate::step::Step::{Allocate, AllocateWithToken, Cancel, Create};

pub const CASES: &[Case] = &[
    // Tokens in one chunk.
    Keep(New, &[Create(16384, 1, 0)], New),
    InTurn(New, &[AllocateWithToken(10, 1), Cancel(438, 0, 0)]),
    Keep(New, &[Allocate(3, 1), AllocateWithToken(8, 8)], Block),
    Each(Block, &[Cancel(432, 1, 445), Cancel(445, 1, 448)]),
    // A token whose block took a chunk: the second chunk stays, whole.
    Keep(New, &[Allocate(3, 1), AllocateWithToken(500, 1)], Block),
    Each(
        Block,
        &[Cancel(956, 1, 445), Cancel(956, 0, 0), Cancel(956, 2, 1456)],
    ),
    // Tokens of no chunk.
    Each(New, &[Cancel(0, 0, 0), Cancel(0, 0, 448), Cancel(0, 1, 0)]),
    // The recorded pointer on both sides of what is acceptable, and a count too high; where the block isn't at the pointer, only the count is tested.
    Keep(New, &[Allocate(10, 1)], Block),
    Each(
        Block,
        &[
            Cancel(438, 1, 437),
            Cancel(438, 1, 438),
            Cancel(438, 1, 448),
            Cancel(438, 1, 449),
            Cancel(438, 2, 448),
            Cancel(439, 1, 449),
            Cancel(439, 2, 448),
        ],
    ),
    // Tokens off the minimum.
    Keep(New, &[Create(496, 8, 0), Allocate(16, 1)], Block),
    Each(Block, &[Cancel(432, 1, 441), Cancel(432, 1, 440)]),
];

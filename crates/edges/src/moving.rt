// Free, grow, shrink, resize and reset: where the block goes, and what its bytes are then.
use crate::case::Case;
use crate::case::Case::{Each, InTurn, Keep};
use crate::case::Kept::{Block, New, Other};
use crate::step::Step::{
    Allocate, Bytes, CopyIn, Create, Fill, Free, Grow, GrowZeroed, Limit, Record, Reset, Resize,
    Shrink,
};

pub const CASES: &[Case] = &[
    Keep(New, &[Create(16384, 1, 0)], New),
    // Not the needed size is freed but the size, and only the newest block gives room back.
    InTurn(New, &[Allocate(3, 8), Free(440, 3, 8)]),
    Keep(New, &[Allocate(10, 1), Allocate(8, 1)], Other),
    InTurn(Other, &[Free(438, 10, 1), Allocate(1, 1)]),
    InTurn(Other, &[Free(430, 8, 1), Allocate(1, 1)]),
    // The block grows downwards, and its old and new place overlap.
    Keep(New, &[CopyIn("abcdefghij", 1)], Block),
    InTurn(Block, &[Grow(438, 10, 1, 14, 1), Bytes(430, 448)]),
    InTurn(Block, &[GrowZeroed(438, 10, 1, 14, 1), Bytes(430, 448)]),
    InTurn(Block, &[Grow(438, 10, 1, 10, 1), Bytes(430, 448)]),
    InTurn(Block, &[Grow(438, 10, 1, 448, 1), Bytes(0, 12)]),
    InTurn(
        New,
        &[
            Create(496, 8, 0),
            CopyIn("abcde", 1),
            Grow(440, 5, 1, 6, 1),
            Bytes(430, 448),
        ],
    ),
    // It grows afresh: not the newest, of a larger alignment, and into a second chunk.
    Keep(Block, &[Fill(1, 1)], Other),
    InTurn(Other, &[Grow(438, 10, 1, 14, 1), Bytes(420, 448)]),
    InTurn(Other, &[GrowZeroed(438, 10, 1, 14, 1), Bytes(420, 448)]),
    InTurn(Block, &[Grow(438, 10, 1, 12, 16), Bytes(414, 448)]),
    InTurn(
        Block,
        &[Grow(438, 10, 1, 500, 1), Bytes(950, 970), Bytes(430, 448)],
    ),
    // It shrinks.
    Keep(New, &[CopyIn("abcde", 1)], Other),
    InTurn(Other, &[Shrink(443, 5, 1, 3, 1), Bytes(440, 448)]),
    InTurn(Other, &[Shrink(443, 5, 1, 2, 1), Bytes(440, 448)]),
    InTurn(New, &[CopyIn("a", 1), Shrink(447, 1, 1, 0, 1)]),
    InTurn(
        New,
        &[
            Create(496, 8, 0),
            CopyIn("abcdefghijklmnop", 1),
            Shrink(432, 16, 1, 7, 1),
            Bytes(430, 448),
        ],
    ),
    InTurn(
        Other,
        &[Fill(1, 1), Shrink(443, 5, 1, 1, 1), Bytes(440, 448)],
    ),
    // An offset that has the larger alignment already stays.
    Keep(New, &[CopyIn("abcdefghij", 1)], Other),
    InTurn(Other, &[Shrink(438, 10, 1, 4, 2), Bytes(430, 448)]),
    InTurn(Other, &[Shrink(438, 10, 1, 4, 16), Bytes(414, 448)]),
    // It is resized.
    InTurn(Block, &[Resize(438, 10, 1, 14), Bytes(430, 448)]),
    InTurn(Block, &[Resize(438, 10, 1, 10), Bytes(430, 448)]),
    InTurn(Block, &[Resize(438, 10, 1, 6), Bytes(430, 448)]),
    InTurn(Block, &[Resize(438, 10, 1, 5), Bytes(430, 448)]),
    Each(Block, &[Resize(438, 10, 1, 0), Resize(99999, 0, 8, 4)]),
    // The arena is reset.
    InTurn(New, &[Reset]),
    Keep(
        New,
        &[
            Allocate(448, 1),
            Allocate(500, 1),
            Limit(2000),
            Record,
            Reset,
            Record,
        ],
        Other,
    ),
    Each(Other, &[Allocate(960, 1), Free(956, 500, 1)]),
    // The sequence that document 01 gives for the replay program.
    InTurn(
        New,
        &[
            Allocate(10, 1),
            Allocate(8, 8),
            Free(424, 8, 8),
            Allocate(6, 1),
            Grow(426, 6, 1, 20, 1),
            Record,
        ],
    ),
];

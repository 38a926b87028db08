// Every refusal by every call that can give it. In each group all that can be wrong is wrong at first, and one thing after the other is put right:
// the lowest number that applies is answered.
use crate::case::Case;
use crate::case::Case::{Each, InTurn, Keep, Refused};
use crate::case::Kept::{Block, New, Other};
use crate::step::Step::{
    Allocate, AllocateWithToken, Cancel, CopyIn, Create, Fill, Free, Grow, GrowZeroed, Lend, Lent,
    Limit, Littered, NoLimit, Overcounted, Reset, Resize, Shrink,
};

pub const CASES: &[Case] = &[
    Keep(
        New,
        &[Create(16384, 1, 0), CopyIn("abcdefghijklmnop", 1)],
        Block,
    ),
    Refused(
        Block,
        &[
            Allocate(1073741825, 3),
            Allocate(1073741824, 3),
            Allocate(1073741824, 1),
        ],
    ),
    Refused(
        Block,
        &[
            AllocateWithToken(1073741825, 3),
            AllocateWithToken(1073741824, 3),
            AllocateWithToken(1073741824, 1),
        ],
    ),
    Refused(Block, &[CopyIn("abc", 3)]),
    InTurn(New, &[Create(495, 1, 0), CopyIn("abc", 1)]),
    Refused(
        Block,
        &[
            Fill(1073741825, 3),
            Fill(1073741824, 3),
            Fill(1073741824, 1),
        ],
    ),
    Refused(
        Block,
        &[
            Free(431, 1073741825, 3),
            Free(431, 1073741824, 3),
            Free(431, 1073741824, 1),
        ],
    ),
    Refused(
        Block,
        &[
            Lend(431, 1073741825, 3),
            Lend(431, 1073741824, 3),
            Lend(431, 1073741824, 1),
        ],
    ),
    // Both sizes and both alignments are tested.
    Refused(
        Block,
        &[
            Grow(431, 1073741825, 3, 8, 1),
            Grow(431, 16, 3, 1073741825, 1),
            Grow(431, 16, 3, 8, 1),
            Grow(431, 16, 1, 8, 8192),
            Grow(431, 16, 1, 8, 1),
            Grow(432, 16, 1, 15, 1),
            Grow(432, 16, 1, 1073741824, 1),
        ],
    ),
    Refused(
        Block,
        &[
            GrowZeroed(431, 1073741825, 3, 8, 1),
            GrowZeroed(431, 16, 3, 1073741825, 1),
            GrowZeroed(431, 16, 3, 8, 1),
            GrowZeroed(431, 16, 1, 8, 0),
            GrowZeroed(431, 16, 1, 8, 1),
            GrowZeroed(432, 16, 1, 15, 1),
            GrowZeroed(432, 16, 1, 1073741824, 1),
        ],
    ),
    Refused(
        Block,
        &[
            Shrink(431, 16, 3, 1073741825, 1),
            Shrink(431, 1073741825, 3, 8, 1),
            Shrink(431, 16, 3, 17, 1),
            Shrink(431, 16, 1, 17, 8192),
            Shrink(431, 16, 1, 17, 1),
            Shrink(432, 16, 1, 17, 1),
        ],
    ),
    // New room is asked for by an alignment that the offset hasn't.
    InTurn(
        New,
        &[
            Create(496, 1, 0),
            Allocate(16, 1),
            Shrink(432, 16, 1, 8, 4096),
        ],
    ),
    // With an old size of 0 no block is tested.
    Refused(
        Block,
        &[
            Resize(431, 1073741825, 3, 8),
            Resize(431, 16, 3, 1073741825),
            Resize(431, 16, 3, 8),
            Resize(431, 16, 1, 8),
            Resize(432, 16, 1, 1073741824),
            Resize(99999, 0, 3, 1073741825),
            Resize(99999, 0, 3, 1073741824),
            Resize(99999, 0, 1, 1073741824),
        ],
    ),
    // A byte more than the region has is as wrong as a byte less.
    Keep(New, &[Create(496, 1, 0), Allocate(16, 1), Lent(497)], Other),
    Each(
        Other,
        &[
            Allocate(1, 1),
            AllocateWithToken(1, 1),
            CopyIn("abc", 1),
            Fill(3, 1),
            Lend(432, 16, 1),
            Grow(432, 16, 1, 17, 1),
            GrowZeroed(432, 16, 1, 17, 1),
            Shrink(432, 16, 1, 8, 1),
            Resize(432, 16, 1, 17),
        ],
    ),
    // Calls that are lent no bytes.
    InTurn(Block, &[Overcounted, Cancel(432, 34, 432)]),
    InTurn(Block, &[Littered, Cancel(432, 2, 432)]),
    InTurn(Block, &[Cancel(432, 2, 432)]),
    InTurn(Block, &[Overcounted, Reset]),
    InTurn(Block, &[Littered, Reset]),
    InTurn(Block, &[Overcounted, Limit(448)]),
    InTurn(Block, &[Littered, Limit(448)]),
    InTurn(Block, &[Overcounted, NoLimit]),
    InTurn(Block, &[Littered, NoLimit]),
];

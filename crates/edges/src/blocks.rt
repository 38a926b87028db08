// Blocks at each edge of a chunk, and a full table.
use crate::case::Case;
use crate::case::Case::{Each, InTurn, Keep};
use crate::case::Kept::{Block, New, Other};
use crate::step::Step::{
    Allocate, Bytes, CopyIn, Create, Free, Lend, Limit, ManyChunks, NoLimit, Record, Reset,
};

pub const CASES: &[Case] = &[
    // A chunk from 0 to 448 whose pointer is 432: at the pointer.
    Keep(
        New,
        &[Create(16384, 1, 0), CopyIn("abcdefghijklmnop", 1)],
        Block,
    ),
    Each(
        Block,
        &[Lend(432, 16, 1), Lend(431, 1, 1), Lend(431, 17, 1)],
    ),
    InTurn(Block, &[Lend(432, 1, 1), Bytes(430, 450)]),
    Each(
        Block,
        &[
            Lend(0, 0, 1),
            Lend(431, 0, 1),
            Lend(18446744073709551615, 1, 1),
            Lend(18446744073709551615, 0, 1),
        ],
    ),
    // At the end.
    InTurn(Block, &[Lend(447, 1, 1), Bytes(430, 450)]),
    Each(
        Block,
        &[
            Lend(432, 17, 1),
            Lend(448, 1, 1),
            Lend(448, 0, 1),
            Lend(449, 0, 1),
            Lend(432, 16, 16),
            Lend(432, 16, 32),
            Lend(0, 0, 4096),
        ],
    ),
    // A second chunk from 496 to 1456 whose pointer is 956.
    Keep(Block, &[Allocate(500, 1), Record], Other),
    Each(
        Other,
        &[
            Lend(432, 16, 1),
            Lend(448, 0, 1),
            Lend(449, 0, 1),
            Lend(495, 0, 1),
            Lend(496, 0, 1),
            Lend(432, 600, 1),
            Lend(955, 1, 1),
            Lend(956, 500, 1),
            Lend(956, 501, 1),
            Lend(1456, 0, 1),
            Lend(1457, 0, 1),
        ],
    ),
    // Frees at the edges.
    Each(
        Block,
        &[
            Free(432, 16, 1),
            Free(432, 1, 1),
            Free(432, 0, 1),
            Free(447, 1, 1),
            Free(448, 0, 1),
            Free(0, 0, 1),
            Free(448, 1, 1),
        ],
    ),
    // The region has room for one more chunk of 448 after the 32nd.
    Keep(
        New,
        &[
            Create(16384, 1, 0),
            ManyChunks,
            Limit(14336),
            Allocate(448, 1),
            NoLimit,
        ],
        Other,
    ),
    Each(Other, &[Allocate(1, 1), Allocate(0, 1)]),
    InTurn(Other, &[Free(15376, 448, 1), Allocate(448, 1)]),
    InTurn(Other, &[Reset, Allocate(449, 1), Record]),
];

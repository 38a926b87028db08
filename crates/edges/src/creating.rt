// Creation, and the first block of a new arena: lengths, sizes, alignments and minimums on both sides of what is allowed.
use crate::case::Case;
use crate::case::Case::{Each, InTurn, Keep};
use crate::case::Kept::{Block, New};
use crate::step::Step::{Allocate, Create, Free};

pub const CASES: &[Case] = &[
    // Regions of 0, 495, 496 and 1,073,741,824 bytes, and one more.
    Each(
        New,
        &[
            Create(0, 1, 0),
            Create(0, 1, 1),
            Create(495, 1, 1),
            Create(496, 1, 1),
            Create(496, 1, 448),
            Create(496, 1, 449),
            Create(1073741824, 1, 0),
            Create(1073741824, 1, 1073741760),
            Create(1073741824, 1, 1073741761),
            Create(1073741824, 1, 1073741824),
        ],
    ),
    // Each refusal of creation, and the lowest number where several apply.
    Each(
        New,
        &[
            Create(1073741825, 3, 1073741825),
            Create(1073741824, 3, 1073741825),
            Create(1073741824, 3, 1073741824),
            Create(1073741825, 1, 0),
            Create(496, 0, 0),
            Create(496, 3, 0),
            Create(496, 32, 0),
            Create(496, 2, 0),
            Create(496, 16, 1),
        ],
    ),
    // The smallest regions.
    InTurn(New, &[Create(0, 1, 0), Allocate(0, 1)]),
    Keep(New, &[Create(495, 1, 0)], New),
    Each(New, &[Allocate(0, 1), Allocate(1, 1)]),
    Keep(New, &[Create(496, 1, 0)], New),
    InTurn(New, &[Allocate(0, 1)]),
    Keep(New, &[Allocate(1, 1), Allocate(447, 1)], Block),
    Each(Block, &[Allocate(0, 1), Allocate(1, 1)]),
    // Sizes and alignments.
    Keep(New, &[Create(16384, 1, 0)], New),
    Each(
        New,
        &[
            Allocate(1073741824, 1),
            Allocate(1073741825, 1),
            Allocate(1, 0),
            Allocate(1, 3),
            Allocate(1, 8192),
        ],
    ),
    InTurn(New, &[Allocate(1, 4096), Allocate(0, 4096), Allocate(1, 1)]),
    // Minimums.
    InTurn(New, &[Create(496, 8, 0), Allocate(3, 1), Free(440, 3, 1)]),
    InTurn(New, &[Create(496, 16, 0), Allocate(1, 1), Free(432, 1, 1)]),
];

// Limits: small ones in a new arena, and those around the held bytes.
use crate::case::Case;
use crate::case::Case::{InTurn, Keep};
use crate::case::Kept::{Block, New};
use crate::step::Step::{Allocate, Create, Limit, Record};

pub const CASES: &[Case] = &[
    Keep(New, &[Create(16384, 1, 0)], New),
    // Small limits.
    InTurn(New, &[Limit(100), Allocate(64, 1)]),
    InTurn(New, &[Limit(200), Allocate(64, 1), Record]),
    InTurn(New, &[Limit(64), Allocate(40, 1), Record]),
    InTurn(New, &[Limit(64), Allocate(64, 1)]),
    InTurn(New, &[Limit(10), Allocate(0, 1), Record]),
    InTurn(New, &[Limit(0), Allocate(0, 1)]),
    // The default size on both sides, and the largest limit.
    InTurn(New, &[Limit(447), Allocate(447, 1)]),
    InTurn(New, &[Limit(447), Allocate(1, 1), Record]),
    InTurn(New, &[Limit(448), Allocate(448, 1)]),
    InTurn(New, &[Limit(18446744073709551615), Allocate(1, 1)]),
    // 448 bytes are held and all given out.
    Keep(New, &[Allocate(448, 1)], Block),
    InTurn(Block, &[Limit(447), Allocate(1, 1)]),
    InTurn(Block, &[Limit(448), Allocate(1, 1)]),
    InTurn(Block, &[Limit(449), Allocate(1, 1)]),
    InTurn(Block, &[Limit(895), Allocate(1, 1)]),
    InTurn(Block, &[Limit(896), Allocate(1, 1), Record]),
    // And a larger request.
    InTurn(Block, &[Limit(1407), Allocate(500, 1)]),
    InTurn(Block, &[Limit(1408), Allocate(500, 1), Record]),
    InTurn(Block, &[Limit(448), Allocate(500, 1)]),
    InTurn(Block, &[Limit(100), Allocate(500, 1)]),
];

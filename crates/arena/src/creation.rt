// Creation (`try_with_min_align_and_capacity` in the Rust), and the records that hold no chunk or one more.
ghost use Rattle.std.specs.Prelude.{◌≡◌, true, [], ◌∷◌, ◌<◌};
ghost use Rattle.arena.specs.Numbers.{places};
ghost use Rattle.arena.specs.Record.{held_of, holding};
ghost use Rattle.arena.specs.Sound.{sound_of};
ghost use Rattle.arena.specs.Creation.{refused_creation, created_of};

use crate::ladder::take_rung;
use crate::layout::{Allowed, Layout};
use crate::lent::Inside;
use crate::sound::is_allowed_minimum;
use crate::{Arena, Chunk, Head, Outcome, Refusal};

// The record of this head with no chunk.
// No From: of a head only its settings are taken.
pub fn emptied(h: Head) -> Arena
    ensures { result ≡ holding h [] }
{
    Arena {
        head: Head { count: 0, ..h },
        starts: [0; 32],
        sizes: [0; 32],
        pointers: [0; 32],
    }
}

// The record with one chunk more, which becomes current.
pub fn with_chunk(a: Arena, c: Chunk) -> Arena
    requires { (sound_of a ≡ true) × (a.head.count < places) }
    ensures { result ≡ holding a.head (c ∷ held_of a) }
{
    let i = a.head.count;
    let mut out = a;
    out.starts[i] = c.start;
    out.sizes[i] = c.size;
    out.pointers[i] = c.pointer;
    out.head.count = i + 1;
    out
}

fn refused_creation(r: Refusal) -> Outcome<()>
    ensures { result ≡ refused_creation r }
{
    let none = emptied(Head {
        region: 0,
        minimum: 1,
        limited: 0,
        limit: 0,
        count: 0,
    });
    Outcome {
        answer: Err(r),
        arena: none,
    }
}

impl Arena {
    // The region is told by its length: creation reads none of its bytes and writes none.
    pub fn with_min_align_and_capacity(
        region: usize,
        minimum: usize,
        capacity: usize,
    ) -> Outcome<()>
        ensures { result ≡ created_of region minimum capacity }
    {
        if Arena::MOST < region {
            return refused_creation(Refusal::Region);
        }
        if Arena::MOST < capacity {
            return refused_creation(Refusal::Size);
        }
        if !is_allowed_minimum(minimum) {
            return refused_creation(Refusal::Align);
        }
        let head = Head {
            region,
            minimum,
            limited: 0,
            limit: 0,
            count: 0,
        };
        let fresh = emptied(head);
        if capacity == 0 {
            return Outcome {
                answer: Ok(()),
                arena: fresh,
            };
        }
        let layout = Layout {
            size: capacity,
            align: minimum,
        };
        let request = Allowed { layout };
        let inside = Inside { lent: fresh.lent() };
        let got = take_rung(&inside, 0, request, Arena::DEFAULT_SIZE);
        let Some(c) = got else {
            return refused_creation(Refusal::Room);
        };
        Outcome {
            answer: Ok(()),
            arena: with_chunk(fresh, c),
        }
    }
}

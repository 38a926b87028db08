// An arena's record with the bytes that are lent to it, and how both are compared.
use arena::Arena;
use trial::row::{Plant, no_chunk};

pub const BYTES: usize = 16384;

// A change that a call's comparison has to see.
#[derive(Clone, Copy)]
pub enum Planted {
    After(Plant),
    // In the block's first byte, after a lend and before its owner writes there.
    BeforeTheWrite,
}

// The first lent bytes are the region, in fixed memory, since no program allocates.
#[derive(Clone, Copy)]
pub struct Store {
    pub arena: Arena,
    pub lent: usize,
    pub bytes: [u8; BYTES],
    pub planted: Option<Planted>,
}

impl Store {
    // A record without a region, and full stops.
    pub fn blank() -> Store {
        Store {
            arena: no_chunk(0),
            lent: 0,
            bytes: [b'.'; BYTES],
            planted: None,
        }
    }

    // The bytes that a call is lent: all for a longer region.
    pub fn region(&mut self) -> &mut [u8] {
        let n = self.lent.min(BYTES);
        &mut self.bytes[..n]
    }

    pub fn put(mut self, plant: Plant) -> Store {
        plant.put(&mut self.arena, &mut self.bytes);
        self
    }

    // With what is planted after a call.
    pub fn after_call(self) -> Store {
        match self.planted {
            Some(Planted::After(plant)) => self.put(plant),
            _ => self,
        }
    }

    // Every byte is the same, but for those from an offset to another, which the call may write.
    pub fn is_same_outside(&self, other: &Store, from: usize, to: usize) -> bool {
        let from = from.min(BYTES);
        let to = to.clamp(from, BYTES);
        self.bytes[..from] == other.bytes[..from] && self.bytes[to..] == other.bytes[to..]
    }

    // The record handed back is the one handed in, number by number, and so is each byte.
    pub fn is_same(&self, other: &Store) -> bool {
        self.arena == other.arena && self.bytes == other.bytes
    }
}

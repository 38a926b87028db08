// The tape that compare/ writes: records of 24 bytes, and the patterns that they name.
pub const RECORD: usize = 24;

// What a record asks for, by its first byte.
#[derive(Clone, Copy)]
pub enum Code {
    Create,
    Allocate,
    Free,
    Grow,
    Shrink,
    Reset,
    SetLimit,
    NoLimit,
    AllocateWithToken,
    Cancel,
    Resize,
    GrowZeroed,
    CopyIn,
    FillIn,
    OwnerWrites,
}

#[derive(Clone, Copy)]
pub struct UnknownCode;

impl TryFrom<u8> for Code {
    type Error = UnknownCode;

    fn try_from(byte: u8) -> Result<Code, UnknownCode> {
        Ok(match byte {
            0 => Code::Create,
            1 => Code::Allocate,
            2 => Code::Free,
            3 => Code::Grow,
            4 => Code::Shrink,
            5 => Code::Reset,
            6 => Code::SetLimit,
            7 => Code::NoLimit,
            8 => Code::AllocateWithToken,
            9 => Code::Cancel,
            10 => Code::Resize,
            11 => Code::GrowZeroed,
            12 => Code::CopyIn,
            13 => Code::FillIn,
            14 => Code::OwnerWrites,
            _ => return Err(UnknownCode),
        })
    }
}

// A record: its code, if it is one, the pattern that it names, and its numbers.
#[derive(Clone, Copy)]
pub struct Record {
    pub code: Option<Code>,
    pub pattern: u8,
    pub numbers: [u32; 5],
}

// 4 bytes, big-endian; 0 where the record is too short.
fn number(bytes: &[u8], at: usize) -> u32 {
    match bytes.get(at..).and_then(|rest| rest.first_chunk::<4>()) {
        Some(four) => u32::from_be_bytes(*four),
        None => 0,
    }
}

impl Record {
    // None of fewer than two bytes.
    pub fn read(bytes: &[u8]) -> Option<Record> {
        let &[code, pattern, ..] = bytes else {
            return None;
        };
        Some(Record {
            code: Code::try_from(code).ok(),
            pattern,
            numbers: [4, 8, 12, 16, 20].map(|at| number(bytes, at)),
        })
    }
}

// Byte i of a pattern.
fn pattern(p: u8, i: usize) -> u8 {
    let place = i % 65536;
    let sum = usize::from(p) + 167 * place + place / 256;
    (sum % 256) as u8
}

pub fn write_pattern(part: &mut [u8], p: u8) {
    for (i, b) in part.iter_mut().enumerate() {
        *b = pattern(p, i);
    }
}

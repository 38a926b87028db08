// Replays a tape of requests to the arena and writes a digest of its state after each: our side of compare/, which says what the numbers are.
#![tactic(auto)]

ghost use Rattle.std.specs.Prelude.{◌≤◌, length};

mod digest;
mod tape;

use crate::digest::{DIGEST, digest_of, set_weights};
use crate::tape::{Code, RECORD, Record, write_pattern};
use arena::{Arena, Outcome, Refusal};
use calls::{Token, TokenAllocation};
use std::io;
use std::io::{Read, Write};
use trial::table::{Retrying, read_full};

// What a digest says of an answer without an offset: these two are compare/'s.
const DONE: usize = 4294967295;

const REFUSED: usize = 2147483648;

const BUFFER: usize = 65536;

// The digests of a piece of 43,680 bytes, 1,820 records, fit in the output.
const PIECE: usize = 43680;

// What a request was answered, and the token that it was given.
#[derive(Clone, Copy)]
struct Said {
    number: usize,
    token: Option<Token>,
}

// The arena after a record, and what its request was answered. A record that is no request is answered nothing.
#[derive(Clone, Copy)]
struct Turn {
    arena: Arena,
    said: Option<Said>,
}

fn refused(r: Refusal) -> usize {
    REFUSED + r.number()
}

fn answered(arena: Arena, answer: Result<usize, Refusal>, token: Option<Token>) -> Turn {
    let number = answer.unwrap_or_else(refused);
    Turn {
        arena,
        said: Some(Said { number, token }),
    }
}

impl From<Outcome<()>> for Turn {
    fn from(got: Outcome<()>) -> Turn {
        answered(got.arena, got.answer.map(|()| DONE), None)
    }
}

impl From<Outcome<usize>> for Turn {
    fn from(got: Outcome<usize>) -> Turn {
        answered(got.arena, got.answer, None)
    }
}

impl From<TokenAllocation> for Turn {
    fn from(got: TokenAllocation) -> Turn {
        answered(got.arena, got.answer, Some(got.token))
    }
}

// A code that is none of these asks for nothing, and is answered 0.
fn ask(a: Arena, region: &mut [u8], source: &mut [u8], record: Record) -> Turn {
    let p = record.pattern;
    let [high, low, ..] = record.numbers;
    let [n1, n2, n3, n4, n5] = record.numbers.map(|n| n as usize);
    match record.code {
        Some(Code::Create) => Turn::from(Arena::with_min_align_and_capacity(region.len(), n1, n3)),
        Some(Code::Allocate) => Turn::from(calls::allocate::allocate(a, region, n1, n2)),
        Some(Code::Free) => Turn::from(calls::free::free(a, n1, n2, n3)),
        Some(Code::Grow) => Turn::from(reshape::grow::grow(a, region, n1, n2, n3, n4, n5)),
        Some(Code::Shrink) => Turn::from(reshape::shrink::shrink(a, region, n1, n2, n3, n4, n5)),
        Some(Code::Reset) => Turn::from(a.reset()),
        Some(Code::SetLimit) => {
            let limit = high as usize * 4294967296 + low as usize;
            Turn::from(a.set_allocation_limit(limit))
        }
        Some(Code::NoLimit) => Turn::from(a.no_allocation_limit()),
        Some(Code::AllocateWithToken) => Turn::from(takeback::tokens::allocate_with_token(
            a, region, n1, n2,
        )),
        Some(Code::Cancel) => {
            let token = Token {
                count: n2,
                pointer: n3,
            };
            Turn::from(takeback::tokens::cancel(a, n1, token))
        }
        Some(Code::Resize) => Turn::from(reshape::resize::resize(a, region, n1, n2, n3, n4)),
        Some(Code::GrowZeroed) => Turn::from(reshape::grow::grow_zeroed(
            a, region, n1, n2, n3, n4, n5,
        )),
        Some(Code::CopyIn) => {
            let n = n1.min(source.len());
            let part = &mut source[..n];
            write_pattern(part, p);
            Turn::from(calls::write::copy_in(a, region, part, n2))
        }
        Some(Code::FillIn) => Turn::from(calls::write::fill_in(a, region, n1, n2, p)),
        // The owner of a block writes its pattern there: no request, so no digest.
        Some(Code::OwnerWrites) => {
            write_pattern(calls::lend::lend(a, region, n1, n2, n3), p);
            Turn {
                arena: a,
                said: None,
            }
        }
        None => answered(a, Ok(0), None),
    }
}

// The region is the first `lent` bytes of the space. The source has what is copied in. All have fixed memory, since no program allocates.
#[derive(Drop)]
struct Replay<'a> {
    turn: Turn,
    lent: usize,
    space: &'a mut [u8],
    source: [u8; BUFFER],
    weights: &'a [u64],
}

impl<'a> Replay<'a> {
    // In a region of no bytes.
    fn begun(space: &'a mut [u8], weights: &'a [u64]) -> Replay<'a> {
        Replay {
            turn: Turn::from(Arena::with_min_align_and_capacity(0, 1, 0)),
            lent: 0,
            space,
            source: [0; BUFFER],
            weights,
        }
    }

    // A creation has a region of its own length.
    fn run(&mut self, record: Record) {
        if let Some(Code::Create) = record.code {
            self.lent = (record.numbers[1] as usize).min(self.space.len());
            write_pattern(&mut self.space[..self.lent], record.pattern);
        }
        let lent = self.lent.min(self.space.len());
        let region = &mut self.space[..lent];
        self.turn = ask(self.turn.arena, region, &mut self.source, record);
    }

    fn digest(&self) -> Option<[u8; DIGEST]> {
        let said = self.turn.said?;
        let region = &self.space[..self.lent.min(self.space.len())];
        Some(digest_of(
            &self.turn.arena,
            region,
            self.weights,
            said.number,
            said.token.unwrap_or_default(),
        ))
    }

    // A digest after each request, where the output has room for it. Answers how many bytes of it are written.
    fn run_piece(&mut self, piece: &[u8], output: &mut [u8]) -> usize
        ensures { result ≤ length output.new }
    {
        let mut put = 0;
        for bytes in piece.chunks(RECORD) {
            if let Some(record) = Record::read(bytes) {
                self.run(record);
            }
            if let Some(digest) = self.digest() {
                if let Some(place) = output[put..].first_chunk_mut() {
                    *place = digest;
                    put += DIGEST;
                }
            }
        }
        put
    }
}

// To the end of the input, or to four thousand million pieces.
// All room is fixed memory, since no program allocates.
fn run_all<R: Read, W: Write>(reader: &mut R, writer: &mut W) -> io::Result<()> {
    let mut weights = [0; BUFFER];
    set_weights(&mut weights);
    let mut space = [0; BUFFER];
    let mut replay = Replay::begun(&mut space, &weights);
    let mut input = [0; PIECE];
    let mut output = [0; BUFFER];
    for _ in 0..4000000000u32 {
        let got = read_full(reader, &mut input)?;
        let put = replay.run_piece(&input[..got], &mut output);
        writer.write_all(&output[..put])?;
        if got == 0 {
            break;
        }
    }
    Ok(())
}

fn main(rt: HostRuntime) -> io::Result<()> {
    run_all(&mut Retrying(rt.stdin()), &mut rt.stdout())
}

// Does one piece of work as often as it is told, for an instruction counter: cost WHAT CHUNKS TURNS SIZE ALIGN NEW. The difference of two runs that differ
// in TURNS alone is the cost of the turns between them. Prints how many turns were served.
//
// Every number of a turn is read from a list, as a user's would be: nothing is known of it when the program is compiled, and nothing that is worked out
// of it in one turn serves the next. The current chunk has room for 110 turns that take 48 bytes each.
#![tactic(auto)]

ghost use Rattle.std.specs.Prelude.{◌≤◌, ◌<◌};

mod inner;

use arena::layout::Layout;
use arena::sound::is_sound;
use arena::{Arena, Head};
use inner::{Calls, Numbers};
use std::env::Args;
use std::{env, io};

const REGION: usize = 8192;
// As many turns as the list has numbers for.
const MOST_TURNS: usize = 128;

// What a turn does: the soundness test alone, or calls on a sound record.
#[derive(Clone, Copy)]
enum Work {
    Sound,
    Calls(Calls),
}

// The number of no work.
struct NoWork;

impl TryFrom<usize> for Work {
    type Error = NoWork;

    fn try_from(number: usize) -> Result<Self, NoWork> {
        Ok(match number {
            0 => Work::Sound,
            1 => Work::Calls(Calls::Allocate),
            2 => Work::Calls(Calls::Free),
            3 => Work::Calls(Calls::Grow),
            4 => Work::Calls(Calls::Shrink),
            5 => Work::Calls(Calls::Token),
            6 => Work::Calls(Calls::Cancel),
            7 => Work::Calls(Calls::Reset),
            12 => Work::Calls(Calls::FreeTests),
            13 => Work::Calls(Calls::GrowTests),
            14 => Work::Calls(Calls::ShrinkTests),
            16 => Work::Calls(Calls::CancelTests),
            _ => return Err(NoWork),
        })
    }
}

fn digit(d: u8) -> usize
    ensures { result < 16 }
{
    (d % 16) as usize
}

// A number in decimal digits, taken below a thousand million so that it never wraps.
fn number(text: &[u8]) -> usize
    ensures { result < 1000000000 }
{
    let mut n: usize = 0;
    for d in text {
        n = (n * 10 + digit(*d)) % 1000000000;
    }
    n
}

// The next argument; 0 where there is none, or it is longer than any that is meant.
fn argument(arguments: &mut Args) -> usize {
    match arguments.next() {
        Some(text) => short_number(text.as_bytes()),
        None => 0,
    }
}

fn short_number(text: &[u8]) -> usize {
    if 16 < text.len() { 0 } else { number(text) }
}

fn chunk_size(current: bool) -> usize
    ensures { result ≤ 6144 }
{
    if current { 6144 } else { 16 }
}

// A record that holds this many chunks, one after the other: the current one with most of the region, the others of 16.
fn holding(chunks: usize) -> Arena
    requires { chunks ≤ 32 }
{
    let head = Head {
        region: REGION,
        minimum: 1,
        limited: 0,
        limit: 0,
        count: chunks,
    };
    let mut out = Arena {
        head: head,
        starts: [0; 32],
        sizes: [0; 32],
        pointers: [0; 32],
    };
    // By places: three columns are written.
    for i in 0..chunks {
        let size = chunk_size(i + 1 == chunks);
        out.starts[i] = 64 * i;
        out.sizes[i] = size;
        out.pointers[i] = 64 * i + size;
    }
    out
}

// A pointer moves each turn.
fn sound_turns(a: Arena, turns: usize) -> usize {
    let mut now = a;
    for turn in 0..turns {
        now.pointers[0] = 15 + turn % 2;
        if !is_sound(&now.lent()) {
            return turn;
        }
    }
    turns
}

fn main(rt: HostRuntime) -> io::Result<()> {
    let mut arguments = env::args(&rt)?;
    let _program = arguments.next();
    let what = argument(&mut arguments);
    let chunks = argument(&mut arguments);
    let turns = argument(&mut arguments);
    let size = argument(&mut arguments);
    let align = argument(&mut arguments);
    let new = argument(&mut arguments);
    if 32 < chunks {
        return Ok(());
    }
    if MOST_TURNS < turns {
        return Ok(());
    }
    let mut region = [0u8; REGION];
    let numbers = [Numbers {
        first: Layout { size, align },
        old: Layout { size, align },
        new: Layout { size: new, align },
        nothing: 0,
    }; MOST_TURNS];
    let found = match Work::try_from(what) {
        Ok(Work::Sound) => sound_turns(holding(chunks), turns),
        Ok(Work::Calls(calls)) => inner::served(
            calls,
            holding(chunks),
            &mut region,
            &numbers[..turns],
        ),
        Err(NoWork) => 0,
    };
    println!(rt; "{found}")
}

// Runs every call that can answer STATE on each record of a table, and holds the answers to the table's verdict. Standard input is the table.
#![tactic(auto)]

mod ask;

use crate::ask::{CALLS, Call, ask};
use arena::creation::emptied;
use arena::{Arena, Chunk, Head};
use std::io::Write;
use std::{fmt, io};
use trial::row::{NUMBERS, Plant, put_chunk};
use trial::table::{each_line, read_numbers, split_before};

// What a call does otherwise than the table says.
#[derive(Clone, Copy)]
enum Fault {
    Answered(usize),
    // It was refused, and the record or a byte is another.
    Changed,
}

impl fmt::Display for Fault {
    fn fmt<W: fmt::Write>(&self, f: &mut fmt::Formatter<W>) -> fmt::Result {
        match self {
            Fault::Answered(refusal) => write!(f, "answered {refusal}"),
            Fault::Changed => f.write_str("changed something"),
        }
    }
}

// The bytes that a call is lent.
fn pattern() -> [u8; 4096] {
    let mut bytes = [0; 4096];
    for (i, b) in bytes.iter_mut().enumerate() {
        *b = (i % 4096 * 167 % 251) as u8;
    }
    bytes
}

// As much of the bytes as the region has is lent: all 4,096 for a longer one. What is planted is changed after the call.
fn fault_of(call: Call, a: Arena, refused: bool, plant: Option<Plant>) -> Option<Fault> {
    let mut bytes = pattern();
    let n = a.head.region.min(bytes.len());
    let asked = ask(call, a, &mut bytes[..n]);
    let mut after = asked.arena;
    if let Some(plant) = plant {
        plant.put(&mut after, &mut bytes);
    }
    if (asked.refusal == 1) != refused {
        return Some(Fault::Answered(asked.refusal));
    }
    if asked.refusal == 0 || a == after && bytes == pattern() {
        return None;
    }
    Some(Fault::Changed)
}

// Answers whether there was any.
fn show_faults<W: Write>(out: &mut W, a: Arena, refused: bool) -> io::Result<bool> {
    let mut found = false;
    for call in CALLS {
        if let Some(fault) = fault_of(call, a, refused, None) {
            write!(out, " {call} {fault};")?;
            found = true;
        }
    }
    Ok(found)
}

// No Display: the calls are made while the line is written.
fn show_verdict<W: Write>(out: &mut W, a: Arena, refused: bool) -> io::Result<()> {
    write!(out, ":")?;
    if show_faults(out, a, refused)? {
        return writeln!(out, " OTHERWISE");
    }
    if refused {
        writeln!(out, " refused 1 by every call")
    } else {
        writeln!(out, " sound")
    }
}

// The head's numbers, and then four for each chunk: its place, start, n and pointer.
fn record_of(text: &[u8]) -> Arena {
    let mut numbers = read_numbers(text);
    let mut a = emptied(Head {
        region: numbers.next().unwrap_or(0),
        minimum: numbers.next().unwrap_or(0),
        limited: numbers.next().unwrap_or(0),
        limit: numbers.next().unwrap_or(0),
        count: 0,
    });
    a.head.count = numbers.next().unwrap_or(0);
    for _ in 0..Arena::PLACES {
        let place = numbers.next();
        let chunk = (numbers.next(), numbers.next(), numbers.next());
        let (Some(place), (Some(start), Some(size), Some(pointer))) = (place, chunk) else {
            break;
        };
        let chunk = Chunk {
            start,
            size,
            pointer,
        };
        put_chunk(&mut a, place, chunk);
    }
    a
}

// A verdict, a name, a colon and the record's numbers. Any other line is skipped.
fn run_line<W: Write>(out: &mut W, line: &[u8]) -> io::Result<()> {
    let (refused, rest) = if let Some(rest) = line.strip_prefix(b"refused ") {
        (true, rest)
    } else if let Some(rest) = line.strip_prefix(b"sound ") {
        (false, rest)
    } else {
        return Ok(());
    };
    let (name, numbers) = split_before(rest, b':');
    out.write_all(name)?;
    show_verdict(out, record_of(numbers), refused)
}

// The first byte, the last one and one between them.
const BYTES: [usize; 3] = [0, 2049, 4095];

// How many of the planted changes are seen after a call that is refused.
fn seen(call: Call, a: Arena) -> usize {
    let numbers = (0..NUMBERS).map(Plant::Number);
    let bytes = BYTES.iter().map(|i| Plant::Byte(*i));
    numbers
        .chain(bytes)
        .filter(|plant| matches!(fault_of(call, a, true, Some(*plant)), Some(Fault::Changed)))
        .count()
}

// No Display: the calls are made while the lines are written.
fn show_planted<W: Write>(out: &mut W, a: Arena) -> io::Result<()> {
    for call in CALLS {
        let seen = seen(call, a);
        let all = NUMBERS + BYTES.len();
        writeln!(out, "planted after {call}: {seen} of {all} changes seen")?;
    }
    Ok(())
}

fn main(rt: HostRuntime) -> io::Result<()> {
    let mut out = rt.stdout();
    each_line(&mut rt.stdin(), |line| run_line(&mut out, line))?;
    let unsound = Head {
        region: 33,
        minimum: 33,
        limited: 33,
        limit: 33,
        count: 0,
    };
    show_planted(&mut out, emptied(unsound))
}

// Says what the rules beneath the calls answer to a table of questions: usable sizes, rungs, ladders and places. Standard input is the table; the file
// stdout has its lines with the answers, as they follow from document 01.
#![tactic(auto)]

ghost use Rattle.std.specs.Prelude.{◌≡◌, IfSome};

use arena::ladder::{climb, held_bytes, take_rung};
use arena::layout::{Allowed, Layout};
use arena::lent::Inside;
use arena::placing::lowest_place;
use arena::sizing::usable_size;
use arena::sound::is_allowed_align;
use arena::{Arena, Chunk};
use std::io::Write;
use std::{fmt, io};
use trial::row::{no_chunk, put_chunk};
use trial::table::{each_line, first_numbers, read_numbers, split_before};

// What a rule says: a usable size, the chunk of a rung or the usable size that it doesn't serve, the chunk that the ladder comes to, or a place.
#[derive(Clone, Copy)]
enum Said {
    Usable(usize),
    Rung(Result<Chunk, usize>),
    Ladder(Option<Chunk>),
    Place(Option<usize>),
}

impl fmt::Display for Said {
    fn fmt<W: fmt::Write>(&self, f: &mut fmt::Formatter<W>) -> fmt::Result {
        match *self {
            Said::Usable(n) => write!(f, "{n}"),
            Said::Rung(Ok(c)) | Said::Ladder(Some(c)) => write!(f, "{} at {}", c.size, c.start),
            Said::Rung(Err(n)) => write!(f, "{n} not served"),
            Said::Place(Some(at)) => write!(f, "{at}"),
            Said::Ladder(None) | Said::Place(None) => f.write_str("none"),
        }
    }
}

fn allowed(layout: Layout) -> Option<Allowed>
    ensures { IfSome result (λ request. request.layout ≡ layout) }
{
    if Arena::MOST < layout.size {
        return None;
    }
    if !is_allowed_align(layout.align) {
        return None;
    }
    Some(Allowed { layout })
}

// A rule isn't asked where the record is unsound or the request isn't allowed.
fn ask_usable(base: usize, layout: Layout) -> Option<Said> {
    if Arena::MOST < base {
        return None;
    }
    let request = allowed(layout)?;
    Some(Said::Usable(usable_size(base, request)))
}

// One rung, whether the ladder comes to it or not.
fn ask_rung(a: Arena, base: usize, layout: Layout) -> Option<Said> {
    let sound = a.sound()?;
    let inside = Inside { lent: sound.lent };
    if Arena::MOST < base {
        return None;
    }
    let request = allowed(layout)?;
    let held = held_bytes(&inside);
    let got = take_rung(&inside, held, request, base);
    Some(Said::Rung(got.ok_or(usable_size(base, request))))
}

fn ask_ladder(a: Arena, layout: Layout) -> Option<Said> {
    let sound = a.sound()?;
    let inside = Inside { lent: sound.lent };
    let request = allowed(layout)?;
    Some(Said::Ladder(climb(&inside, request)))
}

fn ask_place(a: Arena, n: usize, multiple: usize) -> Option<Said> {
    let sound = a.sound()?;
    let inside = Inside { lent: sound.lent };
    if Arena::MOST < n {
        return None;
    }
    if multiple == 0 {
        return None;
    }
    if Arena::LARGEST_ALIGN < multiple {
        return None;
    }
    Some(Said::Place(lowest_place(&inside, multiple, n)))
}

// No Display: where no rule was asked there is no value.
fn show_said<W: Write>(out: &mut W, said: Option<Said>) -> io::Result<()> {
    match said {
        Some(said) => writeln!(out, " = {said}"),
        None => writeln!(out, " not asked"),
    }
}

// The region's length, the limit where there is one, and the chunks, each with its n and its start; their pointers are at the start. With a limit the numbers
// are even in number.
fn record_of(text: &[u8]) -> Arena {
    let mut numbers = read_numbers(text);
    let is_limited = numbers.count() % 2 == 0;
    let mut a = no_chunk(numbers.next().unwrap_or(0));
    if is_limited {
        a.head.limited = 1;
        a.head.limit = numbers.next().unwrap_or(0);
    }
    // A chunk's place is its number, and its own numbers are taken two by two.
    for place in 0..Arena::PLACES {
        let (Some(size), Some(start)) = (numbers.next(), numbers.next()) else {
            break;
        };
        let chunk = Chunk {
            start,
            size,
            pointer: start,
        };
        put_chunk(&mut a, place, chunk);
        a.head.count = place + 1;
    }
    a
}

// A question that begins otherwise is skipped.
fn show_question<W: Write>(out: &mut W, a: Arena, question: &[u8]) -> io::Result<()> {
    let [x, y, z] = first_numbers::<3>(question);
    if question.starts_with(b": rung ") {
        return show_said(out, ask_rung(a, x, Layout { size: y, align: z }));
    }
    if question.starts_with(b": ladder ") {
        return show_said(out, ask_ladder(a, Layout { size: x, align: y }));
    }
    if question.starts_with(b": place ") {
        return show_said(out, ask_place(a, x, y));
    }
    Ok(())
}

// Lines that begin otherwise than a question are skipped.
fn run_line<W: Write>(out: &mut W, line: &[u8]) -> io::Result<()> {
    if line.starts_with(b"usable ") {
        out.write_all(line)?;
        let [base, size, align] = first_numbers::<3>(line);
        return show_said(out, ask_usable(base, Layout { size, align }));
    }
    if line.starts_with(b"region ") {
        out.write_all(line)?;
        let (record, question) = split_before(line, b':');
        return show_question(out, record_of(record), question);
    }
    Ok(())
}

fn main(rt: HostRuntime) -> io::Result<()> {
    let mut out = rt.stdout();
    each_line(&mut rt.stdin(), |line| run_line(&mut out, line))
}

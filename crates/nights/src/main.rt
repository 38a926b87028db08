// Runs the request files of a list and holds what they print to their lines. Each is run whole, in one window; a byte more at a time, with little room
// for the lines; and cut in two at every byte.
#![tactic(auto)]

mod list;
mod ways;

use crate::list::{Night, Room};
use crate::ways::{run_by_bytes, run_cut};
use std::io::{Read, Write};
use std::{fmt, io};
use trial::table::Retrying;

// A way of feeding a file that gives another text than its lines: the first byte that is not as it should be, and of cuts their count and the first one's text.
#[derive(Clone, Copy)]
enum Difference {
    Whole {
        place: usize,
    },
    ByBytes {
        place: usize,
    },
    Cuts {
        count: usize,
        at: usize,
        place: usize,
    },
}

impl fmt::Display for Difference {
    fn fmt<W: fmt::Write>(&self, f: &mut fmt::Formatter<W>) -> fmt::Result {
        match *self {
            Difference::Whole { place } => write!(f, "the whole file differs at byte {place}"),
            Difference::ByBytes { place } => {
                write!(f, "a byte more at a time differs at byte {place}")
            }
            Difference::Cuts { count, at, place } => write!(
                f,
                "{count} cuts differ, the first at {at}, which differs at byte {place}"
            ),
        }
    }
}

// The first byte of a text that is not as it should be.
fn first_other(text: &[u8], lines: &[u8]) -> Option<usize> {
    if text == lines {
        return None;
    }
    Some(text.iter().zip(lines).take_while(|(x, y)| x == y).count())
}

impl Night<'_> {
    fn held_to(&self, output: &[u8], written: usize) -> Option<usize> {
        first_other(&output[..written.min(output.len())], self.lines)
    }

    fn run_cut(&self, cut: usize, output: &mut [u8]) -> Option<usize> {
        let written = run_cut(self.file, cut, output);
        self.held_to(output, written)
    }

    fn run_by_bytes(&self, output: &mut [u8]) -> Option<usize> {
        let written = run_by_bytes(self.file, output);
        self.held_to(output, written)
    }

    fn run_cuts(&self, output: &mut [u8]) -> Option<Difference> {
        let mut count: usize = 0;
        let mut first = None;
        for cut in 0..self.file.len() {
            if let Some(place) = self.run_cut(cut, output) {
                count = count.wrapping_add(1);
                first = first.or(Some((cut, place)));
            }
        }
        first.map(|(at, place)| Difference::Cuts { count, at, place })
    }

    fn judge(&self, output: &mut [u8]) -> [Option<Difference>; 3] {
        let whole = self.run_cut(self.file.len(), output);
        let by_bytes = self.run_by_bytes(output);
        [
            whole.map(|place| Difference::Whole { place }),
            by_bytes.map(|place| Difference::ByBytes { place }),
            self.run_cuts(output),
        ]
    }

    fn count_lines(&self) -> usize {
        self.lines.iter().filter(|b| **b == b'\n').count()
    }

    // No Display: the night and what was found are told in one line each.
    fn report<W: Write>(&self, out: &mut W, found: [Option<Difference>; 3]) -> io::Result<()> {
        for difference in found.iter().flatten() {
            out.write_all(self.name)?;
            writeln!(out, ": {difference}")?;
        }
        if found.iter().all(|it| it.is_none()) {
            out.write_all(self.name)?;
            writeln!(out, ": {} lines", self.count_lines())?;
        }
        Ok(())
    }
}

// To the end of the list, or to four thousand million nights.
fn run_all<R: Read, W: Write>(reader: &mut R, out: &mut W) -> io::Result<()> {
    let mut room = Room::empty();
    let mut output = [0u8; 65536];
    for _ in 0..4000000000u32 {
        let Some(night) = room.next_night(reader)? else {
            break;
        };
        let found = night.judge(&mut output);
        night.report(out, found)?;
    }
    Ok(())
}

fn main(rt: HostRuntime) -> io::Result<()> {
    run_all(&mut Retrying(rt.stdin()), &mut rt.stdout())
}

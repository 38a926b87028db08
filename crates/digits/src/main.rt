// Prints the lines of requests whose numbers, offsets and held bytes have every length. Standard input is a table; the file stdout has the lines.
#![tactic(auto)]

mod machines;

use crate::machines::{show_held, show_requests};
use std::io;
use std::io::Write;
use trial::table::{each_line, first_numbers, read_numbers};

// Lines that begin otherwise are skipped.
fn run_line<W: Write>(out: &mut W, lent: &mut [u8], line: &[u8]) -> io::Result<()> {
    if line.starts_with(b"request ") {
        let [number, size] = first_numbers::<2>(line);
        return show_requests(out, lent, number, size);
    }
    if line.starts_with(b"held") {
        return show_held(out, read_numbers(line));
    }
    Ok(())
}

fn main(rt: HostRuntime) -> io::Result<()> {
    let mut out = rt.stdout();
    // One region for all lines: each would clear 65,536 bytes of its own.
    let mut lent = [0; 65536];
    each_line(&mut rt.stdin(), |line| run_line(&mut out, &mut lent, line))
}

// A table as text: a case a line, with its numbers in decimal.
ghost use Rattle.std.specs.Prelude.{◌≡◌, ◌≢◌, ◌<◌, ◌≤◌, ◌++◌, ℕ, List, All, IfOk, OnErr, length, slice_index, take};
ghost use Rattle.std.specs.Io.{ReadsAtMost};
ghost use Rattle.std.specs.Io.KnownBytes.{Consumes, IsAtEnd};
ghost use Rattle.std.specs.Iterator.{at_most};

use std::io;
use std::io::{ErrorKind, Read};

const LONGEST: usize = 65536;

// A reader that reads again where a signal interrupted a read.
#[derive(Drop)]
pub struct Retrying<R>(pub R);

impl<R: Read> Read for Retrying<R> {
    ghost remaining = { λ s. R.remaining s.0 };

    fn read(&mut self, buf: &mut [u8]) -> io::Result<usize> {
        for _ in 0..u64::MAX {
            match self.0.read(buf) {
                Ok(n) => return Ok(n),
                Err(e) => {
                    if e.kind() != ErrorKind::Interrupted {
                        return Err(e);
                    }
                }
            }
        }
        self.0.read(buf)
    }
}

// Reads until the bytes are full or the input ends, and answers how many were read. The library's read_exact fails where the input ends. Where a read fails,
// the reader has lost what earlier reads took; the bytes may be any, and are as many.
// By hand, since a reader may give fewer bytes than there is room for, and how many is what the contract says.
pub fn read_full<R: Read>(input: &mut R, bytes: &mut [u8]) -> io::Result<usize>
    ensures bound { ReadsAtMost result bytes.new }
    ensures taken { IfOk result (λ n. Consumes (R.remaining input.old) (R.remaining input.new) (take n bytes.new)) }
    ensures end { IfOk result (λ n. n < length bytes.new → IsAtEnd (R.remaining input.new)) }
    ensures err { OnErr result ((lost : List ℕ) × Consumes (R.remaining input.old) (R.remaining input.new) lost × (length lost ≤ length bytes.old)) }
    ensures length { OnErr result (length bytes.new ≡ length bytes.old) }
{
    let mut done = 0;
    while done < bytes.len() {
        let n = input.read(&mut bytes[done..])?;
        if n == 0 {
            break;
        }
        done += n;
    }
    Ok(done)
}

// Reads a table of up to 65,536 bytes and runs each of its lines. The table has fixed memory, since no program allocates.
pub fn each_line<R: Read, F: FnMut(&[u8]) -> io::Result<()>>(
    input: &mut R,
    mut run_line: F,
) -> io::Result<()>
    requires { F.IsAlwaysCallable run_line }
{
    let mut table = [0u8; LONGEST];
    let n = read_full(input, &mut table)?;
    for line in table[..n].split(|b| *b == b'\n') {
        run_line(line)?;
    }
    Ok(())
}

// The bytes before the first of a kind, and those from it on: all and none where there is none of it.
pub fn split_before(bytes: &[u8], b: u8) -> (&[u8], &[u8])
    ensures whole { result.0.now ++ result.1.now ≡ bytes.now }
    ensures before { All (λ x. x ≢ b) result.0.now }
    ensures first { 0 < length result.1.now → slice_index result.1.now 0 ≡ b }
{
    let at = bytes.iter().position(|x| *x == b).unwrap_or(bytes.len());
    bytes.split_at(at)
}

// The numbers of a line in their order. Those past the 136th are left out.
#[derive(Clone, Copy)]
pub struct Numbers<'a> {
    rest: &'a [u8],
    left: usize,
}

pub fn read_numbers(line: &[u8]) -> Numbers<'_>
    ensures line { result.rest.now ≡ line.now }
    ensures most { result.left ≡ 136 }
{
    Numbers {
        rest: line,
        left: 136,
    }
}

// A number that doesn't fit in 64 bits stops at what fits.
fn with_digit(value: usize, digit: u8) -> usize {
    if usize::MAX / 10 < value {
        return value;
    }
    (value * 10).wrapping_add(usize::from(digit.wrapping_sub(b'0')))
}

impl Iterator for Numbers<'_> {
    type Item = usize;

    ghost remaining = { λ s. at_most s.left };

    fn next(&mut self) -> Option<usize> {
        if self.left == 0 {
            return None;
        }
        let from = self.rest.iter().position(|b| b.is_ascii_digit())?;
        let digits = &self.rest[from..];
        let end = digits
            .iter()
            .position(|b| !b.is_ascii_digit())
            .unwrap_or(digits.len());
        self.left -= 1;
        self.rest = &digits[end..];
        Some(
            digits[..end]
                .iter()
                .fold(0, |value, digit| with_digit(value, *digit)),
        )
    }
}

// The first N numbers of a line, 0 in the places of those that it hasn't.
pub fn first_numbers<const N: usize>(line: &[u8]) -> [usize; N]
    ensures { N ≡ length result }
{
    let mut numbers = read_numbers(line);
    let mut row = [0; N];
    for place in row.iter_mut() {
        *place = numbers.next().unwrap_or(0);
    }
    row
}

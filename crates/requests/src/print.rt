// Writing lines. Each writer puts a text into the output at a place and answers the place past it.
// No `Display`: that says what is written only where the write succeeds, and a line is always written.
// No struct of the output and the place: each of its methods would have to say two things more, that it still holds these bytes and as many.
ghost use Rattle.std.specs.Prelude.{◌≡◌, ◌+◌, ◌≤◌, length, ◌++◌};
ghost use Rattle.requests.specs.Text.{decimal, newline, line_of, held_text, in_text, chunks_text};
ghost use Rattle.requests.specs.Inner.{Put, reply_said};

use crate::Reply;
use calls::bytes::copy_from;

pub fn put_text(out: &mut [u8], at: usize, text: &[u8]) -> usize
    requires { at + length text.now ≤ length out.old }
    ensures { Put out.old at text.now out.new result }
{
    copy_from(out, at, text);
    at + text.len()
}

pub fn put_number(out: &mut [u8], at: usize, n: usize) -> usize
    requires { at + 20 ≤ length out.old }
    ensures put { Put out.old at (decimal n) out.new result }
    ensures bound { result ≤ at + 20 }
{
    // A buffer and its length, as there is no heap.
    let mut digits = [0u8; 20];
    let k = io::decimal(n as u64, &mut digits);
    put_text(out, at, &digits[..k])
}

// A text, a number and the line's end.
fn put_ended(out: &mut [u8], at: usize, text: &[u8], n: usize) -> usize
    requires { at + length text.now + 21 ≤ length out.old }
    ensures { Put out.old at (text.now ++ (decimal n ++ newline)) out.new result }
{
    let number = put_text(out, at, text);
    let end = put_number(out, number, n);
    put_text(out, end, b"\n")
}

// A request's line. The longest takes 45 bytes.
pub fn put_line(out: &mut [u8], at: usize, number: usize, reply: Reply) -> usize
    requires { at + 64 ≤ length out.old }
    ensures { Put out.old at (line_of number (reply_said reply)) out.new result }
{
    let next = put_number(out, at, number);
    match reply {
        Ok(Some(offset)) => put_ended(out, next, b" at ", offset),
        Ok(None) => put_text(out, next, b" done\n"),
        Err(refusal) => put_ended(out, next, b" refused ", refusal.number()),
    }
}

// A number and a text.
pub fn put_numbered(out: &mut [u8], at: usize, number: usize, text: &[u8]) -> usize
    requires { at + 20 + length text.now ≤ length out.old }
    ensures { Put out.old at (decimal number ++ text.now) out.new result }
{
    let next = put_number(out, at, number);
    put_text(out, next, text)
}

// The last line, which takes 57 bytes at most.
pub fn put_held(out: &mut [u8], at: usize, bytes: usize, chunks: usize) -> usize
    requires { at + 64 ≤ length out.old }
    ensures { Put out.old at (held_text ++ (decimal bytes ++ (in_text ++ (decimal chunks ++ chunks_text)))) out.new result }
{
    let held = put_text(out, at, b"held ");
    let middle = put_number(out, held, bytes);
    let count = put_text(out, middle, b" in ");
    let end = put_number(out, count, chunks);
    put_text(out, end, b" chunks\n")
}

// Machines in the middle of a night, as they are after very many requests.
use arena::{Arena, Chunk};
use requests::Stage;
use requests::machine::{State, feed, finish};
use std::io;
use std::io::Write;
use trial::row::{no_chunk, put_chunk};
use trial::table::Numbers;

// One chunk of 65,488 bytes at 0, with nothing given out.
fn one_chunk() -> Arena {
    let mut a = no_chunk(65536);
    let chunk = Chunk {
        start: 0,
        size: 65488,
        pointer: 65488,
    };
    put_chunk(&mut a, 0, chunk);
    a.head.count = 1;
    a
}

// Three requests: allocate so many bytes at alignment 1; reset; allocate 1,073,741,824 bytes, for which there is no room.
fn window(size: usize) -> [u8; 25] {
    let mut w =
        *b"\x00\x09\x01\x00\x00\x00\x00\x00\x00\x00\x01\x00\x01\x05\x00\x09\x01\x40\x00\x00\x00\x00\x00\x00\x01";
    w[4..7].copy_from_slice(&size.to_be_bytes()[5..]);
    w
}

// The lines have fixed memory, since no program allocates.
fn show_ended<W: Write>(out: &mut W, state: State, rest: &[u8]) -> io::Result<()> {
    let mut lines = [0; 4096];
    let put = finish(state, rest, &mut lines);
    out.write_all(&lines[..put])
}

// The lines of these three from a number on, and those of an end inside the record after them. Where the numbers of the window's bytes don't fit, none of
// it is taken.
pub fn show_requests<W: Write>(
    out: &mut W,
    lent: &mut [u8],
    number: usize,
    size: usize,
) -> io::Result<()> {
    let state = State {
        stage: Stage::Running,
        number,
        arena: one_chunk(),
    };
    let mut lines = [0; 4096];
    let did = feed(state, lent, &window(size), &mut lines);
    out.write_all(&lines[..did.written])?;
    show_ended(out, did.state, b"\x00")
}

// The chunks one after the other, from 0 on.
fn holding(sizes: Numbers<'_>) -> Arena {
    let mut a = no_chunk(1073741824);
    a.head.count = sizes.count();
    let mut start: usize = 0;
    for (place, size) in sizes.enumerate() {
        let chunk = Chunk {
            start,
            size,
            pointer: start,
        };
        put_chunk(&mut a, place, chunk);
        start = start.wrapping_add(size).wrapping_add(Arena::FOOTER);
    }
    a
}

// The last line alone, of chunks with these n.
pub fn show_held<W: Write>(out: &mut W, sizes: Numbers<'_>) -> io::Result<()> {
    let state = State {
        stage: Stage::Stopped,
        number: 1,
        arena: holding(sizes),
    };
    show_ended(out, state, b"")
}

// The list that tools/requests makes: a name, a file and its lines, each a 4-byte length and as many bytes, and again to the end.
ghost use Rattle.std.specs.Prelude.{◌≡◌, length, OnErr};
ghost use Rattle.std.specs.Io.{ReadsAtMost};

use std::io;
use std::io::Read;
use trial::table::read_full;

// A request file, its name and the lines that it has to print.
// It borrows from a `Room` what that has room for.
#[derive(Clone, Copy)]
pub struct Night<'a> {
    pub name: &'a [u8],
    pub file: &'a [u8],
    pub lines: &'a [u8],
}

// The longest file is a header, a record of 65,535 bytes and some more.
const FILE: usize = 131072;

// Room for a night of the list.
#[derive(Drop)]
pub struct Room {
    name: [u8; 4096],
    file: [u8; FILE],
    lines: [u8; 65536],
}

// A length, big-endian; 0 at the end of the list.
fn read_length<R: Read>(reader: &mut R) -> io::Result<usize> {
    let mut four = [0u8; 4];
    read_full(reader, &mut four)?;
    Ok(u32::from_be_bytes(four) as usize)
}

// Answers how many bytes of the next piece it put at the front: all, where they fit.
fn read_piece<R: Read>(reader: &mut R, piece: &mut [u8]) -> io::Result<usize>
    ensures ok { ReadsAtMost result piece.new }
    ensures err { OnErr result (length piece.new ≡ length piece.old) }
{
    let n = read_length(reader)?.min(piece.len());
    read_full(reader, &mut piece[..n])
}

impl Room {
    pub fn empty() -> Room {
        Room {
            name: [0; 4096],
            file: [0; FILE],
            lines: [0; 65536],
        }
    }

    // None at the end of the list.
    pub fn next_night<R: Read>(&mut self, reader: &mut R) -> io::Result<Option<Night<'_>>> {
        let n = read_piece(reader, &mut self.name)?;
        if n == 0 {
            return Ok(None);
        }
        let f = read_piece(reader, &mut self.file)?;
        let l = read_piece(reader, &mut self.lines)?;
        Ok(Some(Night {
            name: &self.name[..n],
            file: &self.file[..f],
            lines: &self.lines[..l],
        }))
    }
}

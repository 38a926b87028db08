// Running the whole records of a window of the file, and printing their lines.
ghost use Rattle.std.specs.Prelude.{◌≡◌, true, ◌+◌, ◌<◌, ◌^◌, length};
ghost use Rattle.arena.specs.Sound.{sound_of};
ghost use Rattle.requests.specs.Window.{memory_of, passed_of, Through};

use crate::print::put_line;
use crate::read::read_front;
use crate::run::run;
use arena::Arena;
use arena::change::make;
use arena::lent::Lent;
use arena::sound::Sound;

// Any line fits in this many bytes.
pub const LINE: usize = 64;

// The record and the next request's number, how many bytes of the window were taken, and how many of the output are written.
#[derive(Clone, Copy)]
pub struct Progress {
    pub arena: Arena,
    pub number: usize,
    pub taken: usize,
    pub written: usize,
}

// Goes on while a whole, good record stands at the front and a line has room. What is taken ends where a record ends.
pub fn run_window(
    arena: Arena,
    region: &mut [u8],
    number: usize,
    window: &[u8],
    out: &mut [u8],
) -> Progress
    requires arena_value { (sound_of arena ≡ true) × (length region.old ≡ arena.head.region) }
    requires window_bound { number + length window.now < 2 ^ 64 }
    ensures { Through (passed_of (length out.old) number (memory_of arena region.old) window.now) out.old result region.new out.new }
{
    // The columns are taken out, since `make` is lent them one by one.
    let mut head = arena.head;
    let mut starts = arena.starts;
    let mut sizes = arena.sizes;
    let mut pointers = arena.pointers;
    let mut next = number;
    let mut taken = 0;
    let mut written = 0;
    // A record's length says where the next begins, and its line how much room is left: no iterator counts both.
    while LINE <= out.len() - written {
        let Ok(record) = read_front(&window[taken..]) else {
            break;
        };
        let lent = Lent {
            head,
            starts: &starts,
            sizes: &sizes,
            pointers: &pointers,
        };
        let ran = run(&Sound { lent }, region, record.request);
        head = make(head, &mut starts, &mut sizes, &mut pointers, ran.change);
        written = put_line(out, written, next, ran.reply);
        taken += record.size;
        next += 1;
    }
    Progress {
        arena: Arena {
            head,
            starts,
            sizes,
            pointers,
        },
        number: next,
        taken,
        written,
    }
}

// Ways of feeding a file to the machine.
use requests::machine::{State, feed, finish, start};

// A file that is fed, how many bytes of it are taken, and how many of the output are written.
#[derive(Drop)]
struct Run<'a> {
    state: State,
    lent: [u8; 65536],
    file: &'a [u8],
    taken: usize,
    output: &'a mut [u8],
    written: usize,
}

impl<'a> Run<'a> {
    fn begun(file: &'a [u8], output: &'a mut [u8]) -> Run<'a> {
        Run {
            state: start(),
            lent: [0; 65536],
            file,
            taken: 0,
            output,
            written: 0,
        }
    }

    // Feeds it the bytes not taken yet of the file's first `to`, with so much room for their lines. Answers whether it took any.
    fn feed_once(&mut self, to: usize, room: usize) -> bool {
        let end = to.min(self.file.len());
        let from = self.taken.min(end);
        let at = self.written.min(self.output.len());
        let until = at + room.min(self.output.len() - at);
        let fed = feed(
            self.state,
            &mut self.lent,
            &self.file[from..end],
            &mut self.output[at..until],
        );
        self.state = fed.state;
        self.taken = from + fed.taken;
        self.written = at + fed.written;
        0 < fed.taken
    }

    // Feeds it until it takes nothing. Each time before it takes a byte or more.
    fn feed_to(&mut self, to: usize, room: usize) {
        for _ in 0..self.file.len() {
            if !self.feed_once(to, room) {
                return;
            }
        }
    }

    // Answers how many bytes of the output are written, with the lines that end it.
    fn end(&mut self) -> usize {
        let from = self.taken.min(self.file.len());
        let at = self.written.min(self.output.len());
        let output = &mut self.output[at..];
        at + finish(self.state, &self.file[from..], output)
    }
}

// The file's first `cut` bytes, and then all that is left.
pub fn run_cut(file: &[u8], cut: usize, output: &mut [u8]) -> usize {
    let room = output.len();
    let mut run = Run::begun(file, output);
    run.feed_to(cut, room);
    run.feed_to(file.len(), room);
    run.end()
}

// Each time a byte more, and room for 128 bytes of lines.
pub fn run_by_bytes(file: &[u8], output: &mut [u8]) -> usize {
    let mut run = Run::begun(file, output);
    for to in 1..=file.len() {
        run.feed_to(to, 128);
    }
    run.end()
}

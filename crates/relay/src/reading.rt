// After a read.
ghost use Rattle.std.specs.Prelude.{◌≡◌, List, ℕ, ◌≤◌, length, drop};
ghost use Rattle.relay.specs.declared.Next.TheVariants.{Read};
ghost use Rattle.relay.specs.Event.{ends, read_answer};
ghost use Rattle.relay.specs.View.{Fits, filled_by, GoesBy};

use crate::{Failure, Next, Relay};
use requests::machine::finish;

impl Relay {
    // So many bytes more are in hand; no more than there is room for.
    #[tactic(auto, unfolding(crate::specs::View::filled_by))]
    fn take_in(self, moved: usize, room: usize) -> Self
        requires { self.filled ≤ room }
        ensures { result ≡ filled_by self moved room }
    {
        let filled = if moved < room - self.filled {
            self.filled + moved
        } else {
            room
        };
        Relay {
            filled,
            next: Next::Feed,
            ..self
        }
    }

    // The input has ended: its last lines are to be written.
    fn end(self, input: &[u8], output: &mut [u8]) -> Self
        requires { Fits self (length input.now) (length output.old) × (self.next ≡ Read) }
        ensures { Fits result (length input.now) (length output.new) × ((lent : List ℕ) → GoesBy ends self lent input.now output.old result lent input.now output.new) }
    {
        let written = finish(self.state, &input[self.start..self.filled], output);
        Relay {
            from: 0,
            to: written,
            is_ended: true,
            next: Next::Write,
            ..self
        }
    }

    // The input is as the read left it, with what it gave after the bytes in hand.
    // No twin of `after_write`: nothing moved is the end of the input here, and a failure there.
    pub fn after_read(self, got: Result<usize, Failure>, input: &[u8], output: &mut [u8]) -> Self
        requires { Fits self (length input.now) (length output.old) × (self.next ≡ Read) }
        ensures { Fits result (length input.now) (length output.new) × ((lent : List ℕ) → GoesBy (read_answer got (drop self.filled input.now)) self lent input.now output.old result lent input.now output.new) }
    {
        match got {
            Ok(0) => self.end(input, output),
            Ok(moved) => self.take_in(moved, input.len()),
            Err(Failure::Interrupted) => self,
            Err(Failure::Other) => self.ask(Next::ReadFailed),
        }
    }
}

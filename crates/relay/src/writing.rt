// After a write.
ghost use Rattle.std.specs.Prelude.{◌≡◌, List, ℕ, ◌≤◌, length};
ghost use Rattle.relay.specs.declared.Next.TheVariants.{Write};
ghost use Rattle.relay.specs.Event.{write_answer};
ghost use Rattle.relay.specs.View.{Fits, written_by, GoesBy};

use crate::{Failure, Next, Relay};

impl Relay {
    // So many bytes of the text are written; no more than there are.
    #[tactic(auto, unfolding(crate::specs::View::written_by))]
    fn give_out(self, moved: usize) -> Self
        requires { self.from ≤ self.to }
        ensures { result ≡ written_by self moved }
    {
        if moved < self.to - self.from {
            return Relay {
                from: self.from + moved,
                next: Next::Write,
                ..self
            };
        }
        Relay {
            from: self.to,
            next: if self.is_ended {
                Next::Done
            } else {
                Next::Feed
            },
            ..self
        }
    }

    // A write that takes nothing has failed.
    pub fn after_write(self, took: Result<usize, Failure>, input: &[u8], output: &[u8]) -> Self
        requires { Fits self (length input.now) (length output.now) × (self.next ≡ Write) }
        ensures { Fits result (length input.now) (length output.now) × ((lent : List ℕ) → GoesBy (write_answer took) self lent input.now output.now result lent input.now output.now) }
    {
        match took {
            Ok(0) => self.ask(Next::WriteFailed),
            Ok(moved) => self.give_out(moved),
            Err(Failure::Interrupted) => self,
            Err(Failure::Other) => self.ask(Next::WriteFailed),
        }
    }
}

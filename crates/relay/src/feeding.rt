// Feeding the machine the bytes in hand.
ghost use Rattle.std.specs.Prelude.{◌≡◌, length};
ghost use Rattle.relay.specs.declared.Next.TheVariants.{Feed};
ghost use Rattle.relay.specs.Event.{feeds};
ghost use Rattle.relay.specs.View.{Fits, GoesBy};

use crate::{Next, Relay};
use calls::bytes::carry;
use requests::machine::feed;

impl Relay {
    // Lines to write come first; then more is fed; and where nothing is taken the bytes in hand go to the front of the input, so that there is room to read.
    pub fn feed_on(self, lent: &mut [u8], input: &mut [u8], output: &mut [u8]) -> Self
        requires { Fits self (length input.old) (length output.old) × (self.next ≡ Feed) }
        ensures { Fits result (length input.new) (length output.new) × GoesBy feeds self lent.old input.old output.old result lent.new input.new output.new }
    {
        let did = feed(self.state, lent, &input[self.start..self.filled], output);
        let fed = Relay {
            state: did.state,
            start: self.start + did.taken,
            from: 0,
            to: did.written,
            ..self
        };
        if 0 < did.written {
            return fed.ask(Next::Write);
        }
        if 0 < did.taken {
            return fed.ask(Next::Feed);
        }
        let left = self.filled - self.start;
        carry(input, self.start, 0, left);
        let next = if left < input.len() {
            Next::Read
        } else {
            Next::TooLong
        };
        Relay {
            start: 0,
            filled: left,
            next,
            ..fed
        }
    }
}

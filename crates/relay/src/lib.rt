// What the replay program does between two calls of the system: each step takes what a call answered, and says which call is asked for next.
#![tactic(auto)]

ghost use Rattle.std.specs.Prelude.{◌≡◌};
ghost use Rattle.relay.specs.View.{begun_relay, asking};

pub mod feeding;
pub mod reading;
pub mod writing;

use requests::machine::{State, start};

// What is asked for: that the bytes in hand are fed, a read, a write, or nothing more. In the last three it went wrong, and that is to be told.
#[derive(Clone, Copy, Debug, PartialEq, Eq)]
pub enum Next {
    Feed,
    Read,
    Write,
    Done,
    ReadFailed,
    WriteFailed,
    TooLong,
}

// Why a call failed: a signal came before it moved a byte, or anything else.
#[derive(Clone, Copy, Debug, PartialEq, Eq)]
pub enum Failure {
    Interrupted,
    Other,
}

// The machine's state; the bytes read and not taken yet, input[start..filled]; the text not written yet, output[from..to]; whether the input has
// ended; and what is asked for.
//
// The buffers are no fields: they are lent to each step apart, so that its type says which of them it only reads. A ghost field could not see them; so `Fits`,
// which speaks of their lengths too, stands in the steps' contracts.
#[derive(Clone, Copy)]
pub struct Relay {
    pub state: State,
    pub start: usize,
    pub filled: usize,
    pub from: usize,
    pub to: usize,
    pub is_ended: bool,
    pub next: Next,
}

impl Relay {
    // Before the first byte.
    pub fn begin() -> Self
        ensures { result ≡ begun_relay }
    {
        Relay {
            state: start(),
            start: 0,
            filled: 0,
            from: 0,
            to: 0,
            is_ended: false,
            next: Next::Feed,
        }
    }

    // The same, and another thing is asked for.
    pub fn ask(self, next: Next) -> Self
        ensures { result ≡ asking self next }
    {
        Relay { next, ..self }
    }
}

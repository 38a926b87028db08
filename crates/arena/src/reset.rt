// Reset: only the current chunk is kept, as if nothing had been given out.
ghost use Rattle.std.specs.Prelude.{◌≡◌, true};
ghost use Rattle.arena.specs.Record.{record_of, chunks_of, holding};
ghost use Rattle.arena.specs.Sound.{sound_of};
ghost use Rattle.arena.specs.Creation.{kept_by_reset, reset_of};

use crate::change::Change;
use crate::sound::is_sound;
use crate::{Arena, Head, Outcome, Refusal};

// In place, on a sound record that is lent in parts; answers its head.
// The four parts by themselves, as in `change::make`.
pub fn keep_current(
    h: Head,
    starts: &mut [usize; 32],
    sizes: &mut [usize; 32],
    pointers: &mut [usize; 32],
) -> Head
    requires { sound_of (record_of h starts.old sizes.old pointers.old) ≡ true }
    ensures { record_of result starts.new sizes.new pointers.new ≡ holding h (kept_by_reset (chunks_of starts.old sizes.old pointers.old h.count)) }
{
    let count = h.count;
    if count == 0 {
        return h;
    }
    // One chunk stands in its place already.
    if count == 1 {
        pointers[0] = starts[0] + sizes[0];
        return h;
    }
    let last = count - 1;
    let start = starts[last];
    let size = sizes[last];
    *starts = [0; 32];
    *sizes = [0; 32];
    *pointers = [0; 32];
    starts[0] = start;
    sizes[0] = size;
    pointers[0] = start + size;
    Head { count: 1, ..h }
}

impl Arena {
    pub fn reset_on(&mut self) -> Result<(), Refusal>
        ensures value { result ≡ (reset_of self.old).answer }
        ensures arena_after { self.new ≡ (reset_of self.old).arena }
    {
        if !is_sound(&self.lent()) {
            return Err(Refusal::State);
        }
        self.change(Change::Kept);
        Ok(())
    }

    pub fn reset(self) -> Outcome<()>
        ensures { result ≡ reset_of self }
    {
        let mut arena = self;
        let answer = arena.reset_on();
        Outcome { answer, arena }
    }
}

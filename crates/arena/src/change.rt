// What a call changes in the record, answered apart from it: a record of 808 bytes that goes in and comes back by value is copied for each call, and one
// whose holder makes the change in its own place is not.
ghost use Rattle.std.specs.Prelude.{◌≡◌, true, [], ◌∷◌};
ghost use Rattle.arena.specs.Record.{record_of};
ghost use Rattle.arena.specs.Refusals.{refused_by, answered};
ghost use Rattle.arena.specs.Sound.{sound_of, state_test};
ghost use Rattle.arena.specs.Inner.{changed_by};

use crate::reset::keep_current;
use crate::sound::is_sound;
use crate::{Arena, Chunk, Head, Outcome, Refusal};

#[derive(Clone, Copy)]
pub enum Change {
    Same,
    // The current pointer.
    Moved(usize),
    // One chunk more, which becomes current.
    Added(Chunk),
    // The head's two numbers, and no Option: what `make` promises it promises of any two.
    Limited(usize, usize),
    // The current chunk alone, and that whole.
    Kept,
}

// In place, on a sound record that is lent in parts; answers its head.
// The four parts by themselves, and no struct of them: a host lends them so, and one that holds a `&mut` would need a clause for each in every caller.
pub fn make(
    h: Head,
    starts: &mut [usize; 32],
    sizes: &mut [usize; 32],
    pointers: &mut [usize; 32],
    change: Change,
) -> Head
    requires { sound_of (record_of h starts.old sizes.old pointers.old) ≡ true }
    ensures { record_of result starts.new sizes.new pointers.new ≡ changed_by change (record_of h starts.old sizes.old pointers.old) }
{
    let count = h.count;
    match change {
        Change::Same => h,
        Change::Moved(p) => {
            if count == 0 {
                return h;
            }
            let last = count - 1;
            pointers[last] = p;
            h
        }
        Change::Added(c) => {
            if Arena::PLACES <= count {
                return h;
            }
            starts[count] = c.start;
            sizes[count] = c.size;
            pointers[count] = c.pointer;
            Head {
                count: count + 1,
                ..h
            }
        }
        Change::Limited(limited, limit) => Head {
            limited,
            limit,
            ..h
        },
        Change::Kept => keep_current(h, starts, sizes, pointers),
    }
}

impl Arena {
    // Where it stands: by value it would be copied to a call and back.
    pub fn change(&mut self, change: Change)
        requires { sound_of self.old ≡ true }
        ensures { self.new ≡ changed_by change self.old }
    {
        self.head = make(
            self.head,
            &mut self.starts,
            &mut self.sizes,
            &mut self.pointers,
            change,
        );
    }

    // The same of a record by value.
    pub fn changed(self, change: Change) -> Arena
        requires { sound_of self ≡ true }
        ensures { result ≡ changed_by change self }
    {
        let mut arena = self;
        arena.change(change);
        arena
    }

    // A call that changes the record so and that nothing but its soundness is tested for.
    pub fn changed_if_sound(self, change: Change) -> Outcome<()>
        ensures { result ≡ answered (refused_by (state_test self ∷ [])) self (changed_by change self) }
    {
        if !is_sound(&self.lent()) {
            return Outcome {
                answer: Err(Refusal::State),
                arena: self,
            };
        }
        Outcome {
            answer: Ok(()),
            arena: self.changed(change),
        }
    }
}

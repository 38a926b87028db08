// The usable size of a chunk, from a base and a request (`new_chunk_memory_details` in the Rust).
ghost use Rattle.std.specs.Prelude.{◌≡◌, ◌≤◌, ◌^◌};
ghost use Rattle.arena.specs.Sizing.{usable_for, usable};

use crate::Arena;
use crate::layout::{Allowed, Layout};

#[tactic(auto, unfolding(crate::specs::Sizing::usable_for))]
fn usable_for(m: usize) -> usize
    requires { m ≤ 2 ^ 32 }
    ensures { result ≡ usable_for m }
{
    if m < Arena::PAGE {
        return rounding::next_power_of_two(m + Arena::OVERHEAD) - Arena::OVERHEAD;
    }
    rounding::round_up_to(m + Arena::OVERHEAD, Arena::PAGE) - Arena::OVERHEAD
}

#[tactic(auto, unfolding(crate::specs::Sizing::usable, crate::specs::Sizing::wanted, crate::specs::Sound::allowed_align))]
pub fn usable_size(base: usize, request: Allowed) -> usize
    requires { base ≤ 2 ^ 31 }
    ensures { result ≡ usable base request.layout.size request.layout.align }
{
    let Layout { size, align } = request.layout;
    let rounded = rounding::round_up_to(size, Arena::STEP.max(align));
    usable_for(base.max(rounded))
}

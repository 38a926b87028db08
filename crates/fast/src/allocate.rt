// Allocate, in place.
ghost use Rattle.std.specs.Prelude.{◌≡◌, true, length};
ghost use Rattle.arena.specs.Sound.{sound_of};
ghost use Rattle.calls.specs.Allocate.{allocate_of};
ghost use Rattle.host.specs.Said.{said_given};
ghost use Rattle.fast.specs.Parts.{head_of, parts_of};

use crate::parts::{lent_in, make_in_parts, sound_in};
use arena::layout::Layout;
use calls::allocate::allocate_fast;
use calls::refusals::lent_answer;
use host::Said;

// Every way to serve or to refuse. It is long and has two callers, so that the compiler leaves it a function of its own.
fn allocate_in_full(
    head: &mut [usize; 5],
    starts: &mut [usize; 32],
    sizes: &mut [usize; 32],
    pointers: &mut [usize; 32],
    size: usize,
    align: usize,
) -> Said
    requires { sound_of (parts_of head.old starts.old sizes.old pointers.old) ≡ true }
    ensures value { result ≡ said_given (allocate_of (parts_of head.old starts.old sizes.old pointers.old) (head_of head.old).region size align).answer }
    ensures pointers_after { parts_of head.new starts.new sizes.new pointers.new ≡ (allocate_of (parts_of head.old starts.old sizes.old pointers.old) (head_of head.old).region size align).arena }
{
    let sound = sound_in(head, starts, sizes, pointers);
    let got = calls::allocate::allocate_in_full(&sound, Layout { size, align });
    make_in_parts(head, starts, sizes, pointers, got.change);
    got.answer.into()
}

// Mostly the current chunk serves: then one number of the record changes, and nothing else is read or stored. No byte of the region is looked at, and its length
// is the record's own.
#[unsafe(no_mangle)]
pub extern "C" fn miravoly_sound_allocate(
    head: &mut [usize; 5],
    starts: &mut [usize; 32],
    sizes: &mut [usize; 32],
    pointers: &mut [usize; 32],
    size: usize,
    align: usize,
) -> Said
    requires { sound_of (parts_of head.old starts.old sizes.old pointers.old) ≡ true }
    ensures value { result ≡ said_given (allocate_of (parts_of head.old starts.old sizes.old pointers.old) (head_of head.old).region size align).answer }
    ensures pointers_after { parts_of head.new starts.new sizes.new pointers.new ≡ (allocate_of (parts_of head.old starts.old sizes.old pointers.old) (head_of head.old).region size align).arena }
{
    let sound = sound_in(head, starts, sizes, pointers);
    let count = sound.lent.head.count;
    if count == 0 {
        return allocate_in_full(head, starts, sizes, pointers, size, align);
    }
    let Some(p) = allocate_fast(&sound, Layout { size, align }) else {
        return allocate_in_full(head, starts, sizes, pointers, size, align);
    };
    let last = count - 1;
    pointers[last] = p;
    Said {
        refusal: 0,
        offset: p,
    }
}

#[unsafe(no_mangle)]
pub extern "C" fn miravoly_fast_allocate(
    head: &mut [usize; 5],
    starts: &mut [usize; 32],
    sizes: &mut [usize; 32],
    pointers: &mut [usize; 32],
    region: &[u8],
    size: usize,
    align: usize,
) -> Said
    ensures value { result ≡ said_given (allocate_of (parts_of head.old starts.old sizes.old pointers.old) (length region.now) size align).answer }
    ensures pointers_after { parts_of head.new starts.new sizes.new pointers.new ≡ (allocate_of (parts_of head.old starts.old sizes.old pointers.old) (length region.now) size align).arena }
{
    if let Err(r) = lent_answer(lent_in(head, starts, sizes, pointers), region.len()) {
        return r.into();
    }
    miravoly_sound_allocate(head, starts, sizes, pointers, size, align)
}

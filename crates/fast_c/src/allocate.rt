// Allocate, in place.
ghost use Rattle.std.specs.Prelude.{◌≡◌, true, length};
ghost use Rattle.arena.specs.Sound.{sound_of};
ghost use Rattle.calls.specs.Allocate.{allocate_of};
ghost use Rattle.host.specs.Said.{said_given};
ghost use Rattle.fast.specs.Parts.{head_of, parts_of};

use host::Said;

#[unsafe(no_mangle)]
pub extern "C" fn miravoly_sound_allocate(
    head: &mut [usize; 5],
    starts: &mut [usize; 32],
    sizes: &mut [usize; 32],
    pointers: &mut [usize; 32],
    size: usize,
    align: usize,
) -> Said
    requires { sound_of (parts_of head.old starts.old sizes.old pointers.old) ≡ true }
    ensures value { result ≡ said_given (allocate_of (parts_of head.old starts.old sizes.old pointers.old) (head_of head.old).region size align).answer }
    ensures pointers_after { parts_of head.new starts.new sizes.new pointers.new ≡ (allocate_of (parts_of head.old starts.old sizes.old pointers.old) (head_of head.old).region size align).arena }
{
    fast::allocate::miravoly_sound_allocate(head, starts, sizes, pointers, size, align)
}

#[unsafe(no_mangle)]
pub extern "C" fn miravoly_fast_allocate(
    head: &mut [usize; 5],
    starts: &mut [usize; 32],
    sizes: &mut [usize; 32],
    pointers: &mut [usize; 32],
    region: &[u8],
    size: usize,
    align: usize,
) -> Said
    ensures value { result ≡ said_given (allocate_of (parts_of head.old starts.old sizes.old pointers.old) (length region.now) size align).answer }
    ensures pointers_after { parts_of head.new starts.new sizes.new pointers.new ≡ (allocate_of (parts_of head.old starts.old sizes.old pointers.old) (length region.now) size align).arena }
{
    fast::allocate::miravoly_fast_allocate(head, starts, sizes, pointers, region, size, align)
}

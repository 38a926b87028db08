// Fill, in place.
ghost use Rattle.std.specs.Prelude.{◌≡◌, true, length};
ghost use Rattle.arena.specs.Sound.{sound_of};
ghost use Rattle.calls.specs.Allocate.{allocate_of};
ghost use Rattle.calls.specs.Write.{fill_bytes};
ghost use Rattle.host.specs.Said.{said_given};
ghost use Rattle.fast.specs.Parts.{head_of, parts_of};

use crate::parts::{lent_in, make_in_parts, sound_in};
use arena::layout::Layout;
use calls::allocate::allocate_placed;
use calls::bytes::fill;
use calls::refusals::lent_answer;
use host::Said;

#[unsafe(no_mangle)]
pub extern "C" fn miravoly_sound_fill(
    head: &mut [usize; 5],
    starts: &mut [usize; 32],
    sizes: &mut [usize; 32],
    pointers: &mut [usize; 32],
    region: &mut [u8],
    size: usize,
    align: usize,
    value: u8,
) -> Said
    requires { (sound_of (parts_of head.old starts.old sizes.old pointers.old) ≡ true) × (length region.old ≡ (head_of head.old).region) }
    ensures value { result ≡ said_given (allocate_of (parts_of head.old starts.old sizes.old pointers.old) (length region.old) size align).answer }
    ensures pointers_after { parts_of head.new starts.new sizes.new pointers.new ≡ (allocate_of (parts_of head.old starts.old sizes.old pointers.old) (length region.old) size align).arena }
    ensures region_after { region.new ≡ fill_bytes (parts_of head.old starts.old sizes.old pointers.old) region.old size align value }
{
    let sound = sound_in(head, starts, sizes, pointers);
    let got = allocate_placed(&sound, Layout { size, align });
    make_in_parts(head, starts, sizes, pointers, got.change);
    let said = Said::from(got.answer);
    if let Ok(offset) = got.answer {
        fill(region, offset, size, value);
    }
    said
}

#[unsafe(no_mangle)]
pub extern "C" fn miravoly_fast_fill(
    head: &mut [usize; 5],
    starts: &mut [usize; 32],
    sizes: &mut [usize; 32],
    pointers: &mut [usize; 32],
    region: &mut [u8],
    size: usize,
    align: usize,
    value: u8,
) -> Said
    ensures value { result ≡ said_given (allocate_of (parts_of head.old starts.old sizes.old pointers.old) (length region.old) size align).answer }
    ensures pointers_after { parts_of head.new starts.new sizes.new pointers.new ≡ (allocate_of (parts_of head.old starts.old sizes.old pointers.old) (length region.old) size align).arena }
    ensures region_after { region.new ≡ fill_bytes (parts_of head.old starts.old sizes.old pointers.old) region.old size align value }
{
    if let Err(r) = lent_answer(lent_in(head, starts, sizes, pointers), region.len()) {
        return r.into();
    }
    miravoly_sound_fill(head, starts, sizes, pointers, region, size, align, value)
}

// Copy in, in place.
ghost use Rattle.std.specs.Prelude.{◌≡◌, true, length};
ghost use Rattle.arena.specs.Sound.{sound_of};
ghost use Rattle.calls.specs.Allocate.{allocate_of};
ghost use Rattle.calls.specs.Write.{copy_in_bytes};
ghost use Rattle.host.specs.Said.{said_given};
ghost use Rattle.fast.specs.Parts.{head_of, parts_of};

use crate::parts::{lent_in, make_in_parts, sound_in};
use arena::layout::Layout;
use calls::allocate::allocate_placed;
use calls::bytes::copy_from;
use calls::refusals::lent_answer;
use host::Said;

#[unsafe(no_mangle)]
pub extern "C" fn miravoly_sound_copy_in(
    head: &mut [usize; 5],
    starts: &mut [usize; 32],
    sizes: &mut [usize; 32],
    pointers: &mut [usize; 32],
    region: &mut [u8],
    source: &[u8],
    align: usize,
) -> Said
    requires { (sound_of (parts_of head.old starts.old sizes.old pointers.old) ≡ true) × (length region.old ≡ (head_of head.old).region) }
    ensures value { result ≡ said_given (allocate_of (parts_of head.old starts.old sizes.old pointers.old) (length region.old) (length source.now) align).answer }
    ensures pointers_after { parts_of head.new starts.new sizes.new pointers.new ≡ (allocate_of (parts_of head.old starts.old sizes.old pointers.old) (length region.old) (length source.now) align).arena }
    ensures region_after { region.new ≡ copy_in_bytes (parts_of head.old starts.old sizes.old pointers.old) region.old source.now align }
{
    let sound = sound_in(head, starts, sizes, pointers);
    let layout = Layout {
        size: source.len(),
        align,
    };
    let got = allocate_placed(&sound, layout);
    make_in_parts(head, starts, sizes, pointers, got.change);
    let said = Said::from(got.answer);
    if let Ok(offset) = got.answer {
        copy_from(region, offset, source);
    }
    said
}

#[unsafe(no_mangle)]
pub extern "C" fn miravoly_fast_copy_in(
    head: &mut [usize; 5],
    starts: &mut [usize; 32],
    sizes: &mut [usize; 32],
    pointers: &mut [usize; 32],
    region: &mut [u8],
    source: &[u8],
    align: usize,
) -> Said
    ensures value { result ≡ said_given (allocate_of (parts_of head.old starts.old sizes.old pointers.old) (length region.old) (length source.now) align).answer }
    ensures pointers_after { parts_of head.new starts.new sizes.new pointers.new ≡ (allocate_of (parts_of head.old starts.old sizes.old pointers.old) (length region.old) (length source.now) align).arena }
    ensures region_after { region.new ≡ copy_in_bytes (parts_of head.old starts.old sizes.old pointers.old) region.old source.now align }
{
    if let Err(r) = lent_answer(lent_in(head, starts, sizes, pointers), region.len()) {
        return r.into();
    }
    miravoly_sound_copy_in(head, starts, sizes, pointers, region, source, align)
}

// Shrink, in place.
ghost use Rattle.std.specs.Prelude.{◌≡◌, true, length};
ghost use Rattle.arena.specs.Sound.{sound_of};
ghost use Rattle.calls.specs.Shrink.{shrink_of, shrink_bytes};
ghost use Rattle.host.specs.Said.{said_given};
ghost use Rattle.fast.specs.Parts.{head_of, parts_of};

use crate::parts::{lent_in, make_in_parts, sound_in};
use arena::layout::{Block, Layout};
use calls::refusals::lent_answer;
use host::Said;
use reshape::shrink::shrink_placed;

#[unsafe(no_mangle)]
pub extern "C" fn miravoly_sound_shrink(
    head: &mut [usize; 5],
    starts: &mut [usize; 32],
    sizes: &mut [usize; 32],
    pointers: &mut [usize; 32],
    region: &mut [u8],
    offset: usize,
    old: usize,
    old_align: usize,
    new: usize,
    new_align: usize,
) -> Said
    requires { (sound_of (parts_of head.old starts.old sizes.old pointers.old) ≡ true) × (length region.old ≡ (head_of head.old).region) }
    ensures value { result ≡ said_given (shrink_of (parts_of head.old starts.old sizes.old pointers.old) (length region.old) offset old old_align new new_align).answer }
    ensures pointers_after { parts_of head.new starts.new sizes.new pointers.new ≡ (shrink_of (parts_of head.old starts.old sizes.old pointers.old) (length region.old) offset old old_align new new_align).arena }
    ensures region_after { region.new ≡ shrink_bytes (parts_of head.old starts.old sizes.old pointers.old) region.old offset old old_align new new_align }
{
    let sound = sound_in(head, starts, sizes, pointers);
    let block = Block {
        offset,
        layout: Layout {
            size: old,
            align: old_align,
        },
    };
    let wanted = Layout {
        size: new,
        align: new_align,
    };
    let got = shrink_placed(&sound, region, block, wanted);
    make_in_parts(head, starts, sizes, pointers, got.change);
    got.answer.into()
}

#[unsafe(no_mangle)]
pub extern "C" fn miravoly_fast_shrink(
    head: &mut [usize; 5],
    starts: &mut [usize; 32],
    sizes: &mut [usize; 32],
    pointers: &mut [usize; 32],
    region: &mut [u8],
    offset: usize,
    old: usize,
    old_align: usize,
    new: usize,
    new_align: usize,
) -> Said
    ensures value { result ≡ said_given (shrink_of (parts_of head.old starts.old sizes.old pointers.old) (length region.old) offset old old_align new new_align).answer }
    ensures pointers_after { parts_of head.new starts.new sizes.new pointers.new ≡ (shrink_of (parts_of head.old starts.old sizes.old pointers.old) (length region.old) offset old old_align new new_align).arena }
    ensures region_after { region.new ≡ shrink_bytes (parts_of head.old starts.old sizes.old pointers.old) region.old offset old old_align new new_align }
{
    if let Err(r) = lent_answer(lent_in(head, starts, sizes, pointers), region.len()) {
        return r.into();
    }
    miravoly_sound_shrink(
        head, starts, sizes, pointers, region, offset, old, old_align, new, new_align,
    )
}

// Resize, in place.
ghost use Rattle.std.specs.Prelude.{◌≡◌, true, length};
ghost use Rattle.arena.specs.Sound.{sound_of};
ghost use Rattle.calls.specs.Resize.{resize_of, resize_bytes};
ghost use Rattle.host.specs.Said.{said_given};
ghost use Rattle.fast.specs.Parts.{head_of, parts_of};

use crate::parts::{lent_in, make_in_parts, sound_in};
use arena::layout::{Block, Layout};
use calls::refusals::lent_answer;
use host::Said;
use reshape::resize::resize_placed;

#[unsafe(no_mangle)]
pub extern "C" fn miravoly_sound_resize(
    head: &mut [usize; 5],
    starts: &mut [usize; 32],
    sizes: &mut [usize; 32],
    pointers: &mut [usize; 32],
    region: &mut [u8],
    offset: usize,
    old: usize,
    align: usize,
    new: usize,
) -> Said
    requires { (sound_of (parts_of head.old starts.old sizes.old pointers.old) ≡ true) × (length region.old ≡ (head_of head.old).region) }
    ensures value { result ≡ said_given (resize_of (parts_of head.old starts.old sizes.old pointers.old) (length region.old) offset old align new).answer }
    ensures pointers_after { parts_of head.new starts.new sizes.new pointers.new ≡ (resize_of (parts_of head.old starts.old sizes.old pointers.old) (length region.old) offset old align new).arena }
    ensures region_after { region.new ≡ resize_bytes (parts_of head.old starts.old sizes.old pointers.old) region.old offset old align new }
{
    let sound = sound_in(head, starts, sizes, pointers);
    let block = Block {
        offset,
        layout: Layout { size: old, align },
    };
    let got = resize_placed(&sound, region, block, new);
    make_in_parts(head, starts, sizes, pointers, got.change);
    got.answer.into()
}

#[unsafe(no_mangle)]
pub extern "C" fn miravoly_fast_resize(
    head: &mut [usize; 5],
    starts: &mut [usize; 32],
    sizes: &mut [usize; 32],
    pointers: &mut [usize; 32],
    region: &mut [u8],
    offset: usize,
    old: usize,
    align: usize,
    new: usize,
) -> Said
    ensures value { result ≡ said_given (resize_of (parts_of head.old starts.old sizes.old pointers.old) (length region.old) offset old align new).answer }
    ensures pointers_after { parts_of head.new starts.new sizes.new pointers.new ≡ (resize_of (parts_of head.old starts.old sizes.old pointers.old) (length region.old) offset old align new).arena }
    ensures region_after { region.new ≡ resize_bytes (parts_of head.old starts.old sizes.old pointers.old) region.old offset old align new }
{
    if let Err(r) = lent_answer(lent_in(head, starts, sizes, pointers), region.len()) {
        return r.into();
    }
    miravoly_sound_resize(
        head, starts, sizes, pointers, region, offset, old, align, new,
    )
}

// A record that is lent in parts and changed in place: no copy of it is made. Its head crosses as five numbers.
ghost use Rattle.std.specs.Prelude.{◌≡◌, true};
ghost use Rattle.arena.specs.Sound.{sound_of};
ghost use Rattle.arena.specs.Inner.{lent_of, changed_by};
ghost use Rattle.fast.specs.Parts.{head_of, parts_of};

use arena::Head;
use arena::change::{Change, make};
use arena::lent::Lent;
use arena::sound::Sound;

fn head_of(head: &[usize; 5]) -> Head
    ensures { result ≡ head_of head.now }
{
    Head {
        region: head[0],
        minimum: head[1],
        limited: head[2],
        limit: head[3],
        count: head[4],
    }
}

pub fn lent_in<'a>(
    head: &[usize; 5],
    starts: &'a [usize; 32],
    sizes: &'a [usize; 32],
    pointers: &'a [usize; 32],
) -> Lent<'a>
    ensures { lent_of result ≡ parts_of head.now starts.now sizes.now pointers.now }
{
    Lent {
        head: head_of(head),
        starts,
        sizes,
        pointers,
    }
}

pub fn sound_in<'a>(
    head: &[usize; 5],
    starts: &'a [usize; 32],
    sizes: &'a [usize; 32],
    pointers: &'a [usize; 32],
) -> Sound<'a>
    requires { sound_of (parts_of head.now starts.now sizes.now pointers.now) ≡ true }
    ensures { lent_of result.lent ≡ parts_of head.now starts.now sizes.now pointers.now }
{
    Sound {
        lent: lent_in(head, starts, sizes, pointers),
    }
}

fn store_head(head: &mut [usize; 5], h: Head)
    ensures { head_of head.new ≡ h }
{
    *head = [h.region, h.minimum, h.limited, h.limit, h.count];
}

pub fn make_in_parts(
    head: &mut [usize; 5],
    starts: &mut [usize; 32],
    sizes: &mut [usize; 32],
    pointers: &mut [usize; 32],
    change: Change,
)
    requires { sound_of (parts_of head.old starts.old sizes.old pointers.old) ≡ true }
    ensures { parts_of head.new starts.new sizes.new pointers.new ≡ changed_by change (parts_of head.old starts.old sizes.old pointers.old) }
{
    let h = make(head_of(head), starts, sizes, pointers, change);
    store_head(head, h);
}

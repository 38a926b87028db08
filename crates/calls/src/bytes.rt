// Writing in the region: the only functions of the library that store a byte. A fill or a copy is lent only the part that it may change.
ghost use Rattle.std.specs.Prelude.{◌≡◌, ◌+◌, ◌≤◌, length, replicate};
ghost use Rattle.calls.specs.Bytes.{written, carried};

// Each byte of the part becomes value. It stores by itself, where the library's `fill` would do it: of its code the test of `specs/Stores.antt` is computed
// (`set-all-stores`).
fn set_all(part: &mut [u8], value: u8)
    ensures { part.new ≡ replicate (length part.old) value }
{
    for byte in part.iter_mut() {
        *byte = value;
    }
}

pub fn fill(region: &mut [u8], at: usize, size: usize, value: u8)
    requires { at + size ≤ length region.old }
    ensures { region.new ≡ written region.old at (replicate size value) }
{
    set_all(&mut region[at..at + size], value);
}

pub fn copy_from(region: &mut [u8], at: usize, source: &[u8])
    requires { at + length source.now ≤ length region.old }
    ensures { region.new ≡ written region.old at source.now }
{
    region[at..at + source.len()].copy_from_slice(source);
}

// Few bytes: the compiler makes one short move of the two copies, and it does not matter what bytes the places share. A shrink to 24 bytes costs 42
// instructions so; by the library's loop it costs 64, and at most 54 are wanted.
fn carry_short(region: &mut [u8], from: usize, to: usize, n: usize)
    requires { (n ≤ 64) × (from + n ≤ length region.old) × (to + n ≤ length region.old) }
    ensures { region.new ≡ carried region.old from to n }
{
    let mut block = [0u8; 64];
    block[..n].copy_from_slice(&region[from..from + n]);
    copy_from(region, to, &block[..n]);
}

// Bytes that stay where they are cost nothing.
pub fn carry(region: &mut [u8], from: usize, to: usize, n: usize)
    requires { (from + n ≤ length region.old) × (to + n ≤ length region.old) }
    ensures { region.new ≡ carried region.old from to n }
{
    if from == to {
        return;
    }
    if n <= 64 {
        carry_short(region, from, to, n);
    } else {
        region.copy_within(from..from + n, to);
    }
}

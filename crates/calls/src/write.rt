// Copy in and fill: allocate, then write the whole block.
ghost use Rattle.std.specs.Prelude.{◌≡◌, length};
ghost use Rattle.calls.specs.Allocate.{allocate_of};
ghost use Rattle.calls.specs.Write.{copy_in_bytes, fill_bytes};

use crate::allocate::allocate_on;
use crate::bytes::{copy_from, fill};
use arena::{Arena, Outcome, Refusal};

// Two calls of document 01, which differ in what they write.
pub fn copy_in_on(
    a: &mut Arena,
    region: &mut [u8],
    source: &[u8],
    align: usize,
) -> Result<usize, Refusal>
    ensures value { result ≡ (allocate_of a.old (length region.old) (length source.now) align).answer }
    ensures arena_after { a.new ≡ (allocate_of a.old (length region.old) (length source.now) align).arena }
    ensures region_after { region.new ≡ copy_in_bytes a.old region.old source.now align }
{
    let offset = allocate_on(a, region, source.len(), align)?;
    copy_from(region, offset, source);
    Ok(offset)
}

pub fn copy_in(a: Arena, region: &mut [u8], source: &[u8], align: usize) -> Outcome<usize>
    ensures value { result ≡ allocate_of a (length region.old) (length source.now) align }
    ensures region_after { region.new ≡ copy_in_bytes a region.old source.now align }
{
    let mut arena = a;
    let answer = copy_in_on(&mut arena, region, source, align);
    Outcome { answer, arena }
}

pub fn fill_in_on(
    a: &mut Arena,
    region: &mut [u8],
    size: usize,
    align: usize,
    value: u8,
) -> Result<usize, Refusal>
    ensures value { result ≡ (allocate_of a.old (length region.old) size align).answer }
    ensures arena_after { a.new ≡ (allocate_of a.old (length region.old) size align).arena }
    ensures region_after { region.new ≡ fill_bytes a.old region.old size align value }
{
    let offset = allocate_on(a, region, size, align)?;
    fill(region, offset, size, value);
    Ok(offset)
}

pub fn fill_in(a: Arena, region: &mut [u8], size: usize, align: usize, value: u8) -> Outcome<usize>
    ensures value { result ≡ allocate_of a (length region.old) size align }
    ensures region_after { region.new ≡ fill_bytes a region.old size align value }
{
    let mut arena = a;
    let answer = fill_in_on(&mut arena, region, size, align, value);
    Outcome { answer, arena }
}

// The digest of a state: 36 bytes that differ, but for chance, where two states differ.
ghost use Rattle.std.specs.Prelude.{◌<◌};

use arena::Arena;
use calls::Token;

pub const DIGEST: usize = 36;

// What stands for a byte in the sum: its place has a weight, and a byte changes the weight's bits.
fn mixed(weight: u64, b: u8) -> u64 {
    weight ^ (u64::from(b) * 55911108632957417)
}

fn next_weight(w: u64) -> u64
    requires { w < 2147483648 }
    ensures { result < 2147483648 }
{
    (w * 1103515245 + 12345) % 2147483648
}

pub fn set_weights(weights: &mut [u64]) {
    let mut w: u64 = 1;
    for weight in weights.iter_mut() {
        let high = next_weight(w);
        w = next_weight(high);
        *weight = high * 2147483648 + w;
    }
}

fn sum(weights: &[u64], region: &[u8], from: usize, to: usize) -> u64 {
    let end = to.min(weights.len()).min(region.len());
    let start = from.min(end);
    weights[start..end].iter().zip(&region[start..end]).fold(
        0,
        |total: u64, (weight, b)| total.wrapping_add(mixed(*weight, *b)),
    )
}

// Every byte but those of the footers' places.
fn bytes_sum(a: &Arena, weights: &[u64], region: &[u8]) -> u64 {
    let whole = sum(weights, region, 0, region.len());
    let chunks = a.starts.iter().zip(&a.sizes).take(a.head.count);
    chunks.fold(whole, |total: u64, (start, size)| {
        let end = start.wrapping_add(*size);
        total.wrapping_sub(sum(weights, region, end, end.wrapping_add(Arena::FOOTER)))
    })
}

fn with_number(sum: u64, x: usize) -> u64
    ensures { result < 4294967296 }
{
    ((sum % 4294967296) * 1000003 + (x % 4294967296) as u64) % 4294967296
}

fn table_sum(a: &Arena) -> u64 {
    let chunks = a
        .starts
        .iter()
        .zip(&a.sizes)
        .zip(&a.pointers)
        .take(a.head.count);
    chunks.fold(0, |total, ((start, size), pointer)| {
        with_number(with_number(with_number(total, *start), *size), *pointer)
    })
}

fn held(a: &Arena) -> usize {
    a.sizes
        .iter()
        .take(a.head.count)
        .fold(0, |total: usize, size| total.wrapping_add(*size))
}

// 0 with no chunk.
fn current_pointer(a: &Arena) -> usize {
    a.pointers
        .iter()
        .take(a.head.count)
        .last()
        .copied()
        .unwrap_or(0)
}

// The low 4 bytes, big-endian.
fn low(x: usize) -> [u8; 4] {
    ((x % 4294967296) as u32).to_be_bytes()
}

// Of the record, its region's bytes, and what a request was answered.
pub fn digest_of(
    a: &Arena,
    region: &[u8],
    weights: &[u64],
    said: usize,
    token: Token,
) -> [u8; DIGEST] {
    let numbers = [
        said,
        a.head.count,
        held(a),
        current_pointer(a),
        token.count,
        token.pointer,
        table_sum(a) as usize,
    ];
    let mut digest = [0; DIGEST];
    for (i, x) in numbers.iter().enumerate() {
        digest[4 * i..4 * i + 4].copy_from_slice(&low(*x));
    }
    digest[28..].copy_from_slice(&bytes_sum(a, weights, region).to_be_bytes());
    digest
}

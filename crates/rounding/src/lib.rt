// Rounding and powers of two, for every layer above. Where document 01 says "rounded up to" or "rounded down to", one of these is meant.
#![tactic(auto, unfolding(crate::specs::Round::round_down, crate::specs::Round::round_up, crate::specs::Round::multiple, crate::specs::Round::one_bit))]

ghost use Rattle.std.specs.Prelude.{◌≡◌, true, ◌&&◌, ◌+◌, ◌%◌, ◌^◌, ◌≤◌, ◌<◌, leb};
ghost use Rattle.rounding.specs.Round.{round_down, round_up, multiple, one_bit, next_power};

pub fn round_down_to(n: usize, divisor: usize) -> usize
    requires { 0 < divisor }
    ensures { result ≡ round_down n divisor }
{
    n - n % divisor
}

pub fn round_up_to(n: usize, divisor: usize) -> usize
    requires { (0 < divisor) × (n + divisor ≤ 2 ^ 64) }
    ensures { result ≡ round_up n divisor }
{
    round_down_to(n + (divisor - 1), divisor)
}

pub fn is_multiple(n: usize, divisor: usize) -> bool
    requires { 0 < divisor }
    ensures { result ≡ multiple divisor n }
{
    n.is_multiple_of(divisor)
}

// The same by a power of two, where the remainder is a mask and costs no division. One form for both takes a type for powers, which each caller has to make of
// a plain number of the record: no plainer.
fn remainder_by_power(n: usize, power: usize) -> usize
    requires { one_bit power ≡ true }
    ensures { result ≡ n % power }
{
    n & (power - 1)
}

pub fn down_to_power(n: usize, power: usize) -> usize
    requires { one_bit power ≡ true }
    ensures { result ≡ round_down n power }
{
    n - remainder_by_power(n, power)
}

pub fn up_to_power(n: usize, power: usize) -> usize
    requires { (one_bit power ≡ true) × (n + power ≤ 2 ^ 64) }
    ensures { result ≡ round_up n power }
{
    down_to_power(n + (power - 1), power)
}

pub fn is_multiple_of_power(n: usize, power: usize) -> bool
    requires { one_bit power ≡ true }
    ensures { result ≡ multiple power n }
{
    remainder_by_power(n, power) == 0
}

// Exactly one bit set, which is a power of two, and at most so large.
pub fn has_one_bit_up_to(n: usize, most: usize) -> bool
    ensures { result ≡ (one_bit n && leb n most) }
{
    n.is_power_of_two() && n <= most
}

// The least power of two at or above n.
pub fn next_power_of_two(n: usize) -> usize
    requires { n ≤ 2 ^ 63 }
    ensures { result ≡ next_power n }
{
    n.next_power_of_two()
}

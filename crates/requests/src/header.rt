// Reading the header.
ghost use Rattle.std.specs.Prelude.{◌≡◌};
ghost use Rattle.requests.specs.Header.{header_of};
ghost use Rattle.requests.specs.Inner.{header_said};

use crate::read::number_at;
use arena::sound::is_allowed_minimum;

// The minimum alignment, and the region's length.
#[derive(Clone, Copy)]
pub struct Header {
    pub minimum: usize,
    pub region: usize,
}

// The bytes of a header.
pub const HEADER: usize = 6;

// The version that is read.
const VERSION: u8 = 1;

// The longest region.
pub const MOST_REGION: usize = 65536;

// None of a wrong or short one.
#[tactic(auto, unfolding(crate::specs::Inner::header_said, crate::specs::Header::header_of, crate::specs::Header::good_header, rounding::specs::First::only))]
pub fn read_header(bytes: &[u8]) -> Option<Header>
    ensures { header_said result ≡ header_of bytes.now }
{
    if bytes.len() < HEADER {
        return None;
    }
    if bytes[0] != VERSION {
        return None;
    }
    let minimum = usize::from(bytes[1]);
    if !is_allowed_minimum(minimum) {
        return None;
    }
    let region = number_at(bytes, 2);
    if MOST_REGION < region {
        return None;
    }
    Some(Header { minimum, region })
}

// Reading a record. A length number says how far it reaches; its own bytes begin with the code.
ghost use Rattle.std.specs.Prelude.{◌≡◌, ◌<◌};
ghost use Rattle.requests.specs.Bytes.{byte_at, number32};
ghost use Rattle.requests.specs.Request.{request_of};
ghost use Rattle.requests.specs.Front.{front_of};
ghost use Rattle.requests.specs.Inner.{front_said, request_read};
ghost use Rattle.requests.specs.declared.Ending.TheVariants.{BadRecord};

use crate::kind::{Kind, NoRequest};
use crate::{Ending, Front, Record, Request};

// The byte at a place, and 0 past the end.
fn byte_at(bytes: &[u8], i: usize) -> u8
    ensures { result ≡ byte_at bytes.now i }
{
    bytes.get(i).copied().unwrap_or(0)
}

// The 4-byte number at a place.
#[tactic(auto, unfolding(crate::specs::Bytes::number32))]
pub fn number_at(bytes: &[u8], i: usize) -> usize
    requires { i < 64 }
    ensures { result ≡ number32 bytes.now i }
{
    let four = [
        byte_at(bytes, i),
        byte_at(bytes, i + 1),
        byte_at(bytes, i + 2),
        byte_at(bytes, i + 3),
    ];
    u32::from_be_bytes(four) as usize
}

impl From<NoRequest> for Ending {
    ghost from_gives = { λ _ e. e ≡ BadRecord };

    fn from(_: NoRequest) -> Ending {
        Ending::BadRecord
    }
}

// A whole record, by its own bytes.
#[tactic(auto, unfolding(crate::specs::Inner::request_read, crate::specs::Inner::size_by, crate::specs::Request::request_by, crate::specs::Request::request_of))]
fn read_record(body: &[u8]) -> Result<Request, NoRequest>
    ensures { request_read result ≡ request_of body.now }
{
    let [code, ..] = body else {
        return Err(NoRequest);
    };
    let kind = Kind::try_from(*code)?;
    if body.len() != kind.length() {
        return Err(NoRequest);
    }
    Ok(kind.request(body))
}

// What stands at the front. A record is looked at only once it is whole, so that one that is cut is never called bad.
#[tactic(auto, unfolding(crate::specs::Inner::front_said, crate::specs::Inner::request_read, crate::specs::Front::front_of, crate::specs::Front::record_front))]
pub fn read_front(bytes: &[u8]) -> Front
    ensures { front_said result ≡ front_of bytes.now }
{
    match bytes {
        [] => Err(Ending::Complete),
        [_] => Err(Ending::CutOff),
        [high, low, rest @ ..] => {
            let length = usize::from(u16::from_be_bytes([*high, *low]));
            let Some(body) = rest.get(..length) else {
                return Err(Ending::CutOff);
            };
            let request = read_record(body)?;
            Ok(Record {
                size: 2 + length,
                request,
            })
        }
    }
}

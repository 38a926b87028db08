// The ten calls that a record may ask for, by their codes.
ghost use Rattle.std.specs.Prelude.{◌≡◌, ◌+◌, ◌*◌, ◌≤◌, length, Some};
ghost use Rattle.requests.specs.Bytes.{byte_at};
ghost use Rattle.requests.specs.Request.{forms, field_of, request_of};
ghost use Rattle.requests.specs.Inner.{request_said, code_of, Decodes, size_by};

use crate::Request;

#[derive(Clone, Copy)]
pub enum Kind {
    Allocate,
    Free,
    Grow,
    Shrink,
    Reset,
    SetLimit,
    NoLimit,
    AllocateWithToken,
    Cancel,
    Resize,
}

// Any other code, no code, or a length that doesn't suit the code.
#[derive(Clone, Copy)]
pub struct NoRequest;

impl TryFrom<u8> for Kind {
    type Error = NoRequest;

    ghost try_from_gives = { Decodes };

    fn try_from(code: u8) -> Result<Self, NoRequest> {
        match code {
            1 => Ok(Kind::Allocate),
            2 => Ok(Kind::Free),
            3 => Ok(Kind::Grow),
            4 => Ok(Kind::Shrink),
            5 => Ok(Kind::Reset),
            6 => Ok(Kind::SetLimit),
            7 => Ok(Kind::NoLimit),
            8 => Ok(Kind::AllocateWithToken),
            9 => Ok(Kind::Cancel),
            10 => Ok(Kind::Resize),
            _ => Err(NoRequest),
        }
    }
}

// A field that the record has, from 0. No length is asked again, as `number_at` has to: a request would take some 50 instructions more.
#[tactic(auto, unfolding(crate::specs::Bytes::number32))]
fn field(body: &[u8], k: usize) -> usize
    requires { 4 * k + 5 ≤ length body.now }
    ensures { result ≡ field_of body.now k }
{
    let at = 1 + 4 * k;
    u32::from_be_bytes([body[at], body[at + 1], body[at + 2], body[at + 3]]) as usize
}

impl Kind {
    // The length that suits the code: its own byte, and 4 for each field.
    #[tactic(auto, unfolding(crate::specs::Inner::size_by))]
    pub fn length(self) -> usize
        ensures { result ≡ size_by forms (code_of self) }
    {
        match self {
            Kind::Reset | Kind::NoLimit => 1,
            Kind::SetLimit => 5,
            Kind::Allocate | Kind::AllocateWithToken => 9,
            Kind::Free | Kind::Cancel => 13,
            Kind::Resize => 17,
            Kind::Grow | Kind::Shrink => 21,
        }
    }

    // The request that a record of this kind says by its fields.
    #[tactic(auto, unfolding(crate::specs::Inner::size_by, crate::specs::Inner::request_said, crate::specs::Request::request_by, crate::specs::Request::request_of))]
    pub fn request(self, body: &[u8]) -> Request
        requires { (code_of self ≡ byte_at body.now 0) × (length body.now ≡ size_by forms (code_of self)) }
        ensures { request_of body.now ≡ Some (request_said result) }
    {
        match self {
            Kind::Allocate => Request::Allocate {
                size: field(body, 0),
                align: field(body, 1),
            },
            Kind::Free => Request::Free {
                offset: field(body, 0),
                size: field(body, 1),
                align: field(body, 2),
            },
            Kind::Grow => Request::Grow {
                offset: field(body, 0),
                old_size: field(body, 1),
                old_align: field(body, 2),
                new_size: field(body, 3),
                new_align: field(body, 4),
            },
            Kind::Shrink => Request::Shrink {
                offset: field(body, 0),
                old_size: field(body, 1),
                old_align: field(body, 2),
                new_size: field(body, 3),
                new_align: field(body, 4),
            },
            Kind::Reset => Request::Reset,
            Kind::SetLimit => Request::SetLimit {
                limit: field(body, 0),
            },
            Kind::NoLimit => Request::NoLimit,
            Kind::AllocateWithToken => Request::AllocateWithToken {
                size: field(body, 0),
                align: field(body, 1),
            },
            Kind::Cancel => Request::Cancel {
                offset: field(body, 0),
                count: field(body, 1),
                pointer: field(body, 2),
            },
            Kind::Resize => Request::Resize {
                offset: field(body, 0),
                old_size: field(body, 1),
                align: field(body, 2),
                new_size: field(body, 3),
            },
        }
    }
}

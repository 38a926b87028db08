// What the calls answer, as plain numbers.
ghost use Rattle.std.specs.Prelude.{◌≡◌};
ghost use Rattle.arena.specs.Refusals.{number_of};
ghost use Rattle.host.specs.Said.{said, said_of, said_given, token_said};

use crate::{Said, SaidToken};
use arena::Refusal;
use calls::Token;

impl From<Refusal> for Said {
    ghost from_gives = { λ r s. s ≡ said (number_of r) 0 };

    fn from(r: Refusal) -> Said {
        Said {
            refusal: r.number(),
            offset: 0,
        }
    }
}

// Of a call that gives out no block.
impl From<Result<(), Refusal>> for Said {
    ghost from_gives = { λ answer s. s ≡ said_of answer };

    fn from(answer: Result<(), Refusal>) -> Said {
        match answer {
            Ok(()) => Said {
                refusal: 0,
                offset: 0,
            },
            Err(r) => r.into(),
        }
    }
}

// Of one that gives one out.
impl From<Result<usize, Refusal>> for Said {
    ghost from_gives = { λ answer s. s ≡ said_given answer };

    fn from(answer: Result<usize, Refusal>) -> Said {
        match answer {
            Ok(offset) => Said { refusal: 0, offset },
            Err(r) => r.into(),
        }
    }
}

pub fn said_token(answer: Result<usize, Refusal>, token: Token) -> SaidToken
    ensures { result ≡ token_said answer token }
{
    let said = Said::from(answer);
    SaidToken {
        refusal: said.refusal,
        offset: said.offset,
        count: token.count,
        pointer: token.pointer,
    }
}

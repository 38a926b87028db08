// Running one request on a record that is known to be sound: nothing tests it again, and its holder makes the change.
ghost use Rattle.std.specs.Prelude.{◌≡◌, length};
ghost use Rattle.arena.specs.Inner.{lent_of};
ghost use Rattle.requests.specs.Run.{done, given_reply, answer_reply, run_in};
ghost use Rattle.requests.specs.Inner.{reply_said, request_said, ran_said};

use crate::{Reply, Request};
use arena::change::Change;
use arena::layout::{Block, Layout};
use arena::sound::Sound;
use calls::allocate::allocate_placed;
use calls::free::free_ended;
use calls::{Answered, Token, TokenPlaced};
use reshape::grow::grow_placed;
use reshape::resize::resize_placed;
use reshape::shrink::shrink_placed;
use takeback::tokens::{allocate_with_token_placed, cancel_ended};

// The reply to a request, and what it changes in the record.
#[derive(Clone, Copy)]
pub struct Ran {
    pub reply: Reply,
    pub change: Change,
}

impl From<Answered<usize>> for Ran {
    ghost from_gives = { λ placed r. (reply_said r.reply ≡ given_reply placed.answer) × (r.change ≡ placed.change) };

    #[tactic(auto, unfolding(crate::specs::Inner::reply_said, crate::specs::Run::given_reply))]
    fn from(placed: Answered<usize>) -> Ran {
        Ran {
            reply: placed.answer.map(Some),
            change: placed.change,
        }
    }
}

impl From<TokenPlaced> for Ran {
    ghost from_gives = { λ placed r. (reply_said r.reply ≡ given_reply placed.answer) × (r.change ≡ placed.change) };

    fn from(placed: TokenPlaced) -> Ran {
        Ran::from(Answered {
            answer: placed.answer,
            change: placed.change,
        })
    }
}

impl From<Answered<()>> for Ran {
    ghost from_gives = { λ ended r. (reply_said r.reply ≡ answer_reply ended.answer) × (r.change ≡ ended.change) };

    #[tactic(auto, unfolding(crate::specs::Inner::reply_said, crate::specs::Run::answer_reply))]
    fn from(ended: Answered<()>) -> Ran {
        Ran {
            reply: ended.answer.map(|()| None),
            change: ended.change,
        }
    }
}

// Of a sound record a reset and a limit are never refused.
#[tactic(auto, unfolding(crate::specs::Inner::reply_said))]
fn always(change: Change) -> Ran
    ensures { (reply_said result.reply ≡ done) × (result.change ≡ change) }
{
    Ran {
        reply: Ok(None),
        change,
    }
}

#[tactic(auto, unfolding(crate::specs::Run::run_in, crate::specs::Inner::request_said, crate::specs::Inner::ran_said, crate::specs::Run::answer_reply, arena::specs::Inner::changed_by, arena::specs::Creation::reset_of, arena::specs::Creation::set_limit_of, arena::specs::Creation::no_limit_of, arena::specs::Refusals::answered, arena::specs::Refusals::refused_by))]
pub fn run(a: &Sound, region: &mut [u8], request: Request) -> Ran
    requires { length region.old ≡ a.now.lent.head.region }
    ensures { ran_said (lent_of a.now.lent) result region.new ≡ run_in (request_said request) (lent_of a.now.lent) region.old }
{
    match request {
        Request::Allocate { size, align } => Ran::from(allocate_placed(a, Layout { size, align })),
        Request::Free {
            offset,
            size,
            align,
        } => {
            let layout = Layout { size, align };
            Ran::from(free_ended(a, Block { offset, layout }))
        }
        Request::Grow {
            offset,
            old_size,
            old_align,
            new_size,
            new_align,
        } => {
            let block = Block {
                offset,
                layout: Layout {
                    size: old_size,
                    align: old_align,
                },
            };
            let wanted = Layout {
                size: new_size,
                align: new_align,
            };
            Ran::from(grow_placed(a, region, block, wanted))
        }
        Request::Shrink {
            offset,
            old_size,
            old_align,
            new_size,
            new_align,
        } => {
            let block = Block {
                offset,
                layout: Layout {
                    size: old_size,
                    align: old_align,
                },
            };
            let wanted = Layout {
                size: new_size,
                align: new_align,
            };
            Ran::from(shrink_placed(a, region, block, wanted))
        }
        Request::Reset => always(Change::Kept),
        Request::SetLimit { limit } => always(Change::Limited(1, limit)),
        Request::NoLimit => always(Change::Limited(0, 0)),
        Request::AllocateWithToken { size, align } => Ran::from(allocate_with_token_placed(
            a,
            Layout { size, align },
        )),
        Request::Cancel {
            offset,
            count,
            pointer,
        } => Ran::from(cancel_ended(a, offset, Token { count, pointer })),
        Request::Resize {
            offset,
            old_size,
            align,
            new_size,
        } => {
            let block = Block {
                offset,
                layout: Layout {
                    size: old_size,
                    align,
                },
            };
            Ran::from(resize_placed(a, region, block, new_size))
        }
    }
}

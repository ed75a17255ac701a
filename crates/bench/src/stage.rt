// The post of a case, at its stage.
use crate::reply::reply_to;
use clock::Rand;
use made::{SEASON, SEED, SERVER, pitch_17};
use octets::codes::{ACK, OFFER};
use octets::span::up_to;
use post::Post;
use reasons::Refusal;

// A call that leads to the next stage: a poll, or a reply of a type.
#[derive(Clone, Copy)]
enum Lead {
    Poll,
    Reply(u8),
}

const LEADS: [Lead; 4] = [Lead::Poll, Lead::Reply(OFFER), Lead::Poll, Lead::Reply(ACK)];

pub fn fresh() -> Result<Post, Refusal> {
    Post::new(pitch_17(), Rand::new(SEED))
}

// A fresh post after so many of these calls.
pub fn at_stage(fresh: Post, stage: usize) -> Post {
    LEADS
        .iter()
        .take(stage)
        .fold(fresh, |post, lead| lead.to(post))
}

impl Lead {
    fn to(self, post: Post) -> Post {
        match self {
            Lead::Poll => post.polled(SEASON, &mut [0; 600]).0,
            Lead::Reply(kind) => {
                let reply = reply_to(post.client.session.transaction_id, kind, 300);
                post.told(SERVER, up_to(&reply, 300), SEASON).0
            }
        }
    }
}

// One whole season: a post that is created on 1 April and polled at each waking moment to the end of October, with leases of
// an hour, through every wrap of the clock. `oracle season` is the same with the Rust's client; its output is the file stdout.
//
// The server hears message k, counted from 0, in hour h of the season. It is silent where h % 29 is 7 or 8. Else, where
// k % 61 is 60, a Request gets a NAK and a Discover nothing; where k % 13 is 12 the message is lost; and any other Discover
// gets an OFFER, any other Request an ACK. A reply comes after 20 + k % 7 ms, with a poll right behind it. Without one the
// next poll is at the waking moment. The season ends before the first call that would come later than its last day.

#![tactic(auto)]

mod digest;
mod season;
mod server;
mod shown;
mod tally;

use clock::Rand;
use made::{SEED, pitch_17};
use post::Post;
use std::io;

fn main(rt: HostRuntime) -> io::Result<()> {
    match Post::new(pitch_17(), Rand::new(SEED)) {
        Ok(post) => season::run(&rt, post),
        Err(_) => println!(&rt; "no post was created"),
    }
}

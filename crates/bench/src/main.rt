// Calls made over and over, to be counted and timed: `oracle/bench` holds this and the Rust's client, `oracle bench`, to the
// same lines. Both read cases on standard input, one to a line, and print for each the number of the last answer and a digest
// over all answers; any other line is a title, and printed as it is.
//
// A case names its call, the stage that a fresh post is brought to through calls, and how often the call is made, each time on
// that same post, at moments that differ by up to 7 ms. The generator goes on from turn to turn.

#![tactic(auto)]

mod calls;
mod cases;
mod reply;
mod stage;
mod sum;

use made::filled;
use stage::fresh;
use std::io;

fn main(rt: HostRuntime) -> io::Result<()> {
    let mut text = [0u8; 65536];
    let text = filled(&rt, &mut text)?;
    match fresh() {
        Ok(post) => cases::run(&rt, post, text),
        Err(refusal) => println!(&rt; "no post was created: {refusal}"),
    }
}

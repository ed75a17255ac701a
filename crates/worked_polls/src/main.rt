// Corners that polls show, of document 01 and of the Rust. The file stdin has them, a line for each call: its first letter
// says which call it is, and each part up to a comma may have a number. `new` makes a post, `poll` polls it, OFFER, ACK and
// NAK are replies, Requesting and Lease set the client's state. Each line is written again, with what came of it and the post
// as it stands then. A line that begins with # says what is to be seen and, where a figure stands in no paper, how it is
// worked out.

#![tactic(auto)]

mod call;
mod line;
mod standing;

use call::Call;
use made::filled;
use standing::Standing;
use std::io;
use trace::lines_in;

fn main(rt: HostRuntime) -> io::Result<()> {
    let mut text = [0u8; 65536];
    run(&rt, filled(&rt, &mut text)?)
}

// Before the first line there is a post without a client: MTU 0 is refused.
fn run(rt: &impl Print, text: &[u8]) -> io::Result<()> {
    let mut standing = Standing::new(0, 0, call::settings([0; 10]));
    for words in lines_in(text) {
        rt.write_all(words)?;
        if let Some(call) = Call::of(words) {
            standing = standing.after(rt, call)?;
            print!(rt; "{standing}")?;
        }
        println!(rt)?;
    }
    Ok(())
}

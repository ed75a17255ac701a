// The Rattle side of the comparison: calls on standard input, an answer to each on standard output (docs/TRACE.md), made by the
// calls of `client` and `tables`. A record that is malformed is said on standard error, and nothing more is read. Answers are
// handed on whenever no call waits, so that a live driver can wait for them.

#![tactic(auto)]

mod calls;
mod stream;

use calls::Replay;
use std::io;

// Room for a line of calls, and for an answer behind those that wait.
const ROOM: usize = 262144;

// The longest buffer that is lent, and the longest reply.
const LONGEST: usize = 65536;

fn main(rt: HostRuntime) -> io::Result<()> {
    let mut text = [0; ROOM];
    let mut room = [0; ROOM];
    let mut lent = [0; LONGEST];
    let mut replay = Replay::new(&mut lent, &mut room);
    stream::run(&rt, &mut text, &mut replay)
}

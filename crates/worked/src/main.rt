// Document 01's worked examples that are not marked ★, and published vectors, run and printed. The figures in the file
// stdout are the papers', or worked out in a comment here.

#![tactic(auto)]

use std::io;

mod reading;
mod time;
mod writing;

fn main(rt: HostRuntime) -> io::Result<()> {
    println!(rt; "src/time.rs")?;
    time::examples(&rt)?;
    println!(rt; "addresses, replies, the store")?;
    reading::examples(&rt)?;
    println!(rt; "messages")?;
    writing::examples(&rt)
}

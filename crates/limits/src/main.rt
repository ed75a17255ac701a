// The Rust's time.rs and rand.rs at their limits: what the clock's functions give there, as lines that are held to the Rust's
// (oracle/clock).

#![tactic(auto)]

use std::io;

mod grid;

fn main(rt: HostRuntime) -> io::Result<()> {
    grid::all(&rt)
}

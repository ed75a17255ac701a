// Document 01's examples of replies that are passed over, and the order of the checks.

#![tactic(auto)]

use std::io;

mod clients;
mod passed_over;
mod taken;

fn main(rt: HostRuntime) -> io::Result<()> {
    passed_over::examples(&rt)
}

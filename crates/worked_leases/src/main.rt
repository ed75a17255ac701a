// Document 01's examples of replies that are taken, and of resets: leases that come, change and go, and what they do to the
// tables.

#![tactic(auto)]

use std::io;

mod calls;
mod endings;
mod installed;
mod offers;
mod renewals;
mod start;

fn main(rt: HostRuntime) -> io::Result<()> {
    offers::examples(&rt)?;
    renewals::examples(&rt)?;
    installed::examples(&rt)?;
    endings::examples(&rt)
}

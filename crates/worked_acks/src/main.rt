// Document 01's examples of an ACK's times, by every row of the table of T1 and T2, of what its lease is made of, and of
// look-ups.

#![tactic(auto)]

use std::io;

mod leases;
mod lookups;
mod shown;
mod taken;
mod times;

fn main(rt: HostRuntime) -> io::Result<()> {
    times::examples(&rt)?;
    leases::examples(&rt)?;
    lookups::examples(&rt)
}

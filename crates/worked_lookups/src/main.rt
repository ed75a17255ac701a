// What a record of calls cannot set or show: look-ups of the client, what stands behind a no, places that are not in use, and
// a draw from a generator that is lent. All other corners are records, in oracle/corners.

#![tactic(auto)]

use std::io;

mod generator;
mod lookups;
mod start;
mod unused;

fn main(rt: HostRuntime) -> io::Result<()> {
    lookups::examples(&rt)?;
    unused::examples(&rt)?;
    generator::examples(&rt)
}

// Document 01's examples of creation and of NotWhole (9), each with its neighbours, and the order of creation's checks.

#![tactic(auto)]

use std::io;

mod broken;
mod calls;
mod clients;
mod creation;

fn main(rt: HostRuntime) -> io::Result<()> {
    creation::examples(&rt)?;
    broken::examples(&rt)
}

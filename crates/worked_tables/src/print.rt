// What the examples print. Tables are printed as the generation, the addresses and the routes; a star marks an entry of DHCP's.
use made::{Refused, Shown};
use reasons::Refusal;
use std::{fmt, io};
use tables::{Applied, Changed, Tables};

// The answer of a look-up, behind a space; nothing where there is no such entry.
#[derive(Clone, Copy)]
pub struct Found<E>(pub Result<Option<E>, Refusal>);

impl<E: Copy> fmt::Display for Found<E>
where
    Shown<E>: fmt::Display,
{
    fn fmt<W: fmt::Write>(&self, f: &mut fmt::Formatter<W>) -> fmt::Result {
        match self.0 {
            Ok(None) => Ok(()),
            Ok(Some(entry)) => write!(f, " {}", Shown(entry)),
            Err(refusal) => write!(f, " {}", Refused(refusal)),
        }
    }
}

// Every entry, as its look-up by place answers. What is shown are the look-ups, so no loop goes over the tables' own entries.
#[derive(Clone, Copy)]
struct Entries(Tables);

impl fmt::Display for Entries {
    fn fmt<W: fmt::Write>(&self, f: &mut fmt::Formatter<W>) -> fmt::Result {
        let t = self.0;
        write!(f, "{} |", t.config_generation)?;
        for place in 0..4 {
            write!(f, "{}", Found(t.addr_at(place)))?;
        }
        f.write_str(" |")?;
        for place in 0..4 {
            write!(f, "{}", Found(t.route_at(place)))?;
        }
        Ok(())
    }
}

// A manual call: its outcome, and the tables after it.
pub fn by_hand(rt: &impl Print, asked: &str, changed: Changed) -> io::Result<Tables> {
    let left = changed.tables;
    match changed.outcome {
        Ok(()) => println!(rt; "{asked}: done | {}", Entries(left))?,
        Err(refusal) => println!(rt; "{asked}: {} | {}", Refused(refusal), Entries(left))?,
    }
    Ok(left)
}

// A lease that comes, changes or goes: whether link state is purged, and the tables after it.
pub fn by_lease(rt: &impl Print, asked: &str, applied: Applied) -> io::Result<Tables> {
    let left = applied.tables;
    let purge = if applied.purge { "purge" } else { "no purge" };
    println!(rt; "{asked}: {purge} | {}", Entries(left))?;
    Ok(left)
}

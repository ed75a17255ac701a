// What `clock` answers at each pair of fifteen numbers round the limits, a line for a pair and a column for an answer:
// oracle/clock gets the same lines from the Rust. A duration is made of its number by from_millis, as the Rust makes it,
// and the generator's seed has the first number in its upper half.
use clock::{Clock, Duration, Instant, Rand};
use std::fmt::Display;
use std::io;

const NUMBERS: [u32; 15] = [
    0, 1, 999, 1000, 1001, 9999, 86400000, 1073741823, 1073741824, 1073741825, 2147483647,
    2147483648, 2147483649, 4294967294, 4294967295,
];

pub fn all(rt: &impl Print) -> io::Result<()> {
    header(rt)?;
    pairs(rt)
}

fn header(rt: &impl Print) -> io::Result<()> {
    rt.write_all(b"a,b,Instant::from_secs,as_secs,subsec_millis,+,-,<,<=,checked_duration_since,")?;
    rt.write_all(
        b"duration_since,min,max,Duration::from_secs,as_secs,subsec_millis,is_zero,checked_add,",
    )?;
    rt.write_all(
        b"checked_sub,saturating_add,saturating_sub,checked_mul,checked_div,saturating_mul,abs_diff,",
    )?;
    rt.write_all(
        b"min,max,Clock::now,next,schedule,expired,next,after,next,Rand::rand_u32,rand_u16,state\n",
    )
}

fn pairs(rt: &impl Print) -> io::Result<()> {
    for a in NUMBERS {
        row(rt, a)?;
    }
    Ok(())
}

fn row(rt: &impl Print, a: u32) -> io::Result<()> {
    for b in NUMBERS {
        pair(rt, a, b)?;
    }
    Ok(())
}

fn pair(rt: &impl Print, a: u32, b: u32) -> io::Result<()> {
    print!(rt; "{a},{b}")?;
    instants(
        rt,
        Instant::from_millis(a),
        Instant::from_millis(b),
        Duration::from_millis(b),
    )?;
    durations(rt, Duration::from_millis(a), Duration::from_millis(b), b)?;
    clocks(
        rt,
        Clock::new(Instant::from_millis(a)),
        Instant::from_millis(b),
        Duration::from_millis(b),
    )?;
    draws(rt, Rand::new(seed(a, b)))?;
    rt.write_all(b"\n")
}

fn seed(a: u32, b: u32) -> u64 {
    u64::from(a) << 32 | u64::from(b)
}

fn instants(rt: &impl Print, a: Instant, b: Instant, wait: Duration) -> io::Result<()> {
    parts(rt, a)?;
    cell(rt, a.add(wait).as_millis())?;
    cell(rt, a.sub(wait).as_millis())?;
    cell(rt, u8::from(a.is_before(b)))?;
    cell(rt, u8::from(a.is_at_or_before(b)))?;
    apart(rt, a, b)
}

fn parts(rt: &impl Print, a: Instant) -> io::Result<()> {
    cell(rt, Instant::from_secs(a.as_millis()).as_millis())?;
    cell(rt, a.as_secs())?;
    cell(rt, a.subsec_millis())
}

fn apart(rt: &impl Print, a: Instant, b: Instant) -> io::Result<()> {
    maybe(rt, a.checked_duration_since(b))?;
    cell(rt, a.duration_since(b).as_millis())?;
    cell(rt, a.min(b).as_millis())?;
    cell(rt, a.max(b).as_millis())
}

fn durations(rt: &impl Print, a: Duration, b: Duration, n: u32) -> io::Result<()> {
    lengths(rt, a)?;
    sums(rt, a, b)?;
    products(rt, a, n)?;
    extremes(rt, a, b)
}

fn lengths(rt: &impl Print, a: Duration) -> io::Result<()> {
    cell(rt, Duration::from_secs(a.as_millis()).as_millis())?;
    cell(rt, a.as_secs())?;
    cell(rt, a.subsec_millis())?;
    cell(rt, u8::from(a.is_zero()))
}

fn sums(rt: &impl Print, a: Duration, b: Duration) -> io::Result<()> {
    maybe(rt, a.checked_add(b))?;
    maybe(rt, a.checked_sub(b))?;
    cell(rt, a.saturating_add(b).as_millis())?;
    cell(rt, a.saturating_sub(b).as_millis())
}

fn products(rt: &impl Print, a: Duration, n: u32) -> io::Result<()> {
    maybe(rt, a.checked_mul(n))?;
    maybe(rt, a.checked_div(n))?;
    cell(rt, a.saturating_mul(n).as_millis())
}

fn extremes(rt: &impl Print, a: Duration, b: Duration) -> io::Result<()> {
    cell(rt, a.abs_diff(b).as_millis())?;
    cell(rt, a.min(b).as_millis())?;
    cell(rt, a.max(b).as_millis())
}

fn clocks(rt: &impl Print, clock: Clock, deadline: Instant, delay: Duration) -> io::Result<()> {
    cell(rt, clock.now().as_millis())?;
    cell(rt, clock.next().as_millis())?;
    cell(rt, clock.schedule(deadline).next().as_millis())?;
    asked(rt, clock, deadline)?;
    timed(rt, clock, delay)
}

fn asked(rt: &impl Print, clock: Clock, deadline: Instant) -> io::Result<()> {
    let asked = clock.expired(deadline);
    cell(rt, u8::from(asked.value))?;
    cell(rt, asked.clock.next().as_millis())
}

fn timed(rt: &impl Print, clock: Clock, delay: Duration) -> io::Result<()> {
    let set = clock.after(delay);
    cell(rt, set.value.as_millis())?;
    cell(rt, set.clock.next().as_millis())
}

fn draws(rt: &impl Print, rand: Rand) -> io::Result<()> {
    let first = rand.rand_u32();
    cell(rt, first.value)?;
    let second = first.rand.rand_u16();
    cell(rt, second.value)?;
    cell(rt, second.rand.state)
}

fn maybe(rt: &impl Print, d: Option<Duration>) -> io::Result<()> {
    match d {
        Some(d) => cell(rt, d.as_millis()),
        None => cell(rt, "none"),
    }
}

fn cell(rt: &impl Print, value: impl Display + Drop) -> io::Result<()> {
    print!(rt; ",{value}")
}

// The examples of "src/time.rs" with what they leave out at its limits, and the waits of "Polling".
use clock::{Duration, Instant, Waits};
use made::{found, line, test};
use std::io;

pub fn examples(rt: &impl Print) -> io::Result<()> {
    durations(rt)?;
    beyond_longest(rt)?;
    half_way_round(rt)?;
    waits(rt)
}

fn durations(rt: &impl Print) -> io::Result<()> {
    millis(rt, "the longest duration, ms", Duration::MAX)?;
    millis(rt, "1,073,741 s, ms", Duration::from_secs(1073741))?;
    millis(rt, "1,073,742 s, ms", Duration::from_secs(1073742))?;
    millis(rt, "4,294,967,295 s, ms", Duration::from_secs(4294967295))
}

// A duration above the longest can be made by hand only; its operations take the number as it is. Twice it, and its
// product with 2, are above 1,073,741,824.
fn beyond_longest(rt: &impl Print) -> io::Result<()> {
    let most = Duration { millis: 4294967295 };
    checked(
        rt,
        "4,294,967,295 ms twice, checked",
        most.checked_add(most),
    )?;
    millis(
        rt,
        "4,294,967,295 ms twice, at most",
        most.saturating_add(most),
    )?;
    checked(rt, "4,294,967,295 ms times 2, checked", most.checked_mul(2))?;
    millis(
        rt,
        "4,294,967,295 ms times 4,294,967,295, at most",
        most.saturating_mul(4294967295),
    )?;
    parts_of(rt, most)
}

// 4,294,967,295 - 1,073,741,824 = 3,221,225,471, which is not clamped; 4,294,967,295 = 2 * 2,147,483,647 + 1.
fn parts_of(rt: &impl Print, most: Duration) -> io::Result<()> {
    checked(
        rt,
        "4,294,967,295 ms less 1,073,741,824 ms, checked",
        most.checked_sub(Duration::MAX),
    )?;
    checked(rt, "half of 4,294,967,295 ms", most.checked_div(2))?;
    checked(rt, "4,294,967,295 ms by 0", most.checked_div(0))?;
    millis(
        rt,
        "0 ms less 4,294,967,295 ms, at least",
        Duration::ZERO.saturating_sub(most),
    )?;
    millis(
        rt,
        "from 0 ms to 4,294,967,295 ms",
        Duration::ZERO.abs_diff(most),
    )
}

// Each of two moments 2^31 ms apart is before the other, so a deadline there is due.
fn half_way_round(rt: &impl Print) -> io::Result<()> {
    let start = Instant::ZERO;
    let half = Instant::from_millis(2147483648);
    test(rt, "0 is before 2,147,483,648", start.is_before(half))?;
    test(rt, "2,147,483,648 is before 0", half.is_before(start))?;
    test(rt, "0 is due at 2,147,483,648", start.is_at_or_before(half))?;
    test(rt, "2,147,483,648 is due at 0", half.is_at_or_before(start))
}

fn waits(rt: &impl Print) -> io::Result<()> {
    let waits = Waits::standard();
    millis(rt, "after a Discover, ms", waits.discover_timeout)?;
    millis(
        rt,
        "after the first Request, ms",
        waits.initial_request_timeout,
    )?;
    line(rt, "Requests of Requesting", waits.request_retries)?;
    millis(rt, "least wait in Renewing, ms", waits.min_renew_timeout)
}

fn millis(rt: &impl Print, asked: &str, duration: Duration) -> io::Result<()> {
    line(rt, asked, duration.as_millis())
}

fn checked(rt: &impl Print, asked: &str, duration: Option<Duration>) -> io::Result<()> {
    found(rt, asked, duration.map(Duration::as_millis))
}

// The calls of a case, each on the post as it was at its stage.
use crate::sum::Sum;
use client::Client;
use clock::{Duration, Instant};
use made::{LENT, SEASON, SERVER, pitch_17};
use octets::span::put_bytes_at;
use post::Post;
use std::io;
use tables::{Changed, Tables};

// Makes a call at each turn, which sums up what it answers and leaves.
fn each_turn<F: FnMut(Sum, u64) -> Sum>(rt: &impl Print, turns: u64, call: F) -> io::Result<()>
    requires { F.IsAlwaysCallable call }
{
    println!(rt; "{}", (0..turns).fold(Sum::new(), call))
}

// A turn's moment, so many milliseconds after the last call of its stage, at SEASON, and up to 7 more.
fn at_turn(turn: u64, step: u32) -> Instant {
    let past = (turn % 8) as u32;
    SEASON
        .add(Duration { millis: past })
        .add(Duration { millis: step })
}

// No call: what a turn costs by itself.
pub fn none(rt: &impl Print, post: Post, turns: u64) -> io::Result<()> {
    each_turn(rt, turns, |sum, turn| {
        sum.left(&post.client, &post.tables)
            .with(at_turn(turn, 0).millis)
    })
}

// How long the lent buffer can be.
const ROOM: usize = 600;

// Polls, replies and creations have a `for` of their own. As closures they were tried, and missed the bar: a turn without a call has
// 26 instructions (docs/SPEED.md), and a closure's locals, zeroed each turn, cost 70 to 80 more. Step,
// room and turns are a line's own numbers.
pub fn polls(rt: &impl Print, post: Post, step: u32, room: usize, turns: u64) -> io::Result<()> {
    let mut lent = [LENT; ROOM];
    let Some(buf) = lent.get_mut(..room) else {
        return Ok(());
    };
    let mut rand = post.rand;
    let mut sum = Sum::new();
    for turn in 0..turns {
        let moment = at_turn(turn, step);
        let polled = post.client.poll(post.tables, rand, moment, buf);
        rand = polled.rand;
        sum = sum
            .left(&polled.client, &polled.tables)
            .polled(polled.outcome)
            .written(buf);
    }
    println!(rt; "{sum}")
}

// No two turns have the same reply: its ninth octet goes with them.
pub fn replies(rt: &impl Print, post: Post, reply: &mut [u8], turns: u64) -> io::Result<()> {
    let mut sum = Sum::new();
    for turn in 0..turns {
        let moment = at_turn(turn, 20);
        put_bytes_at(reply, 8, &[(turn % 256) as u8]);
        let processed = post.client.process(post.tables, SERVER, reply, moment);
        sum = sum
            .left(&processed.client, &processed.tables)
            .purged(processed.outcome);
    }
    println!(rt; "{sum}")
}

pub fn creations(rt: &impl Print, turns: u64) -> io::Result<()> {
    let mut client = Client {
        settings: pitch_17(),
        ..Client::zero()
    };
    let tables = Tables::new();
    let mut sum = Sum::new();
    // Each takes the settings of the one before: a client that nobody reads the compiler would leave out.
    for turn in 0..turns {
        client.settings.hardware[5] = (turn % 256) as u8;
        let created = Client::new(client.settings, false);
        client = Client::or_zero(created);
        sum = sum.left(&client, &tables).done(created.map(|_| ()));
    }
    println!(rt; "{sum}")
}

pub fn resets(rt: &impl Print, post: Post, turns: u64) -> io::Result<()> {
    each_turn(rt, turns, |sum, _| {
        let was = post.client.reset(post.tables);
        sum.left(&was.client, &was.tables).purged(was.outcome)
    })
}

// Changes by hand, of an entry that differs from turn to turn.
pub(crate) fn changes<F: Fn(Tables, u32) -> Changed>(
    rt: &impl Print,
    post: Post,
    turns: u64,
    change: F,
) -> io::Result<()>
    requires { F.IsAlwaysCallable change }
{
    each_turn(rt, turns, |sum, turn| {
        let changed = change(post.tables, 0xc0a80000 + (turn % 256) as u32);
        sum.left(&post.client, &changed.tables)
            .done(changed.outcome)
    })
}

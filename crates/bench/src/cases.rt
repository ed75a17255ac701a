// Cases, by their lines.
use crate::calls::{changes, creations, none, polls, replies, resets};
use crate::reply::{fill, reply_to};
use crate::stage::at_stage;
use post::Post;
use std::io;
use trace::{MOST_VALUES, begins, lines_in, read_record};

// Any line that is no case is a title.
pub fn run(rt: &impl Print, fresh: Post, text: &[u8]) -> io::Result<()> {
    for line in lines_in(text) {
        // Each kind of case is a struct, read by its own form: an enum over them would be matched once, here.
        if begins(line, b"poll ") {
            Poll::of(line).run(rt, fresh)?;
        } else if begins(line, b"process ") {
            Process::of(line).run(rt, fresh)?;
        } else if begins(line, b"call ") {
            Other::of(line).run(rt, fresh)?;
        } else {
            rt.write_all(line)?;
            println!(rt)?;
        }
    }
    Ok(())
}

// Polls with so much room in the lent buffer, so many milliseconds after the stage's last call.
#[derive(Clone, Copy)]
struct Poll {
    stage: usize,
    step: u32,
    room: usize,
    turns: u64,
}

impl Poll {
    fn of(line: &[u8]) -> Poll {
        let form = b"poll stage %c step %w room %h number %c turns %w";
        let [stage, step, room, _, turns, ..] = values(line, form);
        Poll {
            stage: size(stage),
            step: u32::try_from(step).unwrap_or(0),
            room: size(room),
            turns,
        }
    }

    fn run(self, rt: &impl Print, fresh: Post) -> io::Result<()> {
        polls(
            rt,
            at_stage(fresh, self.stage),
            self.step,
            self.room,
            self.turns,
        )
    }
}

// Replies of a type and length, of whose octets so many from a place on have a value.
#[derive(Clone, Copy)]
struct Process {
    stage: usize,
    kind: u8,
    length: usize,
    from: usize,
    count: usize,
    value: u8,
    turns: u64,
}

impl Process {
    fn of(line: &[u8]) -> Process {
        let form = b"process stage %c kind %c length %h from %h fill %c %c number %c turns %w";
        let [stage, kind, length, from, count, value, _, turns, ..] = values(line, form);
        Process {
            stage: size(stage),
            kind: u8::try_from(kind).unwrap_or(0),
            length: size(length),
            from: size(from),
            count: size(count),
            value: u8::try_from(value).unwrap_or(0),
            turns,
        }
    }

    fn run(self, rt: &impl Print, fresh: Post) -> io::Result<()> {
        let post = at_stage(fresh, self.stage);
        let mut reply = reply_to(post.client.session.transaction_id, self.kind, self.length);
        fill(&mut reply, self.from, self.count, self.value);
        match reply.get_mut(..self.length) {
            Some(reply) => replies(rt, post, reply, self.turns),
            None => Ok(()),
        }
    }
}

// A call that is named by a number.
#[derive(Clone, Copy)]
struct Other {
    call: Call,
    stage: usize,
    turns: u64,
}

#[derive(Clone, Copy)]
enum Call {
    // no call at all
    None,
    Creation,
    Reset,
    // by hand
    AddAddress,
    DropAddress,
    AddRoute,
    DropRoute,
}

// Any other number is taken for the last, as the Rust's side takes it: no number is refused.
impl From<u64> for Call {
    fn from(number: u64) -> Call {
        match number {
            0 => Call::None,
            1 => Call::Creation,
            2 => Call::Reset,
            3 => Call::AddAddress,
            4 => Call::DropAddress,
            5 => Call::AddRoute,
            _ => Call::DropRoute,
        }
    }
}

// The router of routes by hand, 10.0.0.1.
const ROUTER: u32 = 0x0a000001;

impl Other {
    fn of(line: &[u8]) -> Other {
        let [call, stage, _, turns, ..] = values(line, b"call %c stage %c number %c turns %w");
        Other {
            call: Call::from(call),
            stage: size(stage),
            turns,
        }
    }

    fn run(self, rt: &impl Print, fresh: Post) -> io::Result<()> {
        let post = at_stage(fresh, self.stage);
        let turns = self.turns;
        match self.call {
            Call::None => none(rt, post, turns),
            Call::Creation => creations(rt, turns),
            Call::Reset => resets(rt, post, turns),
            Call::AddAddress => changes(rt, post, turns, |t, address| t.add_address(address, 24)),
            Call::DropAddress => changes(rt, post, turns, |t, address| t.drop_address(address, 24)),
            Call::AddRoute => changes(
                rt,
                post,
                turns,
                |t, network| t.add_route(network, 24, ROUTER),
            ),
            Call::DropRoute => changes(
                rt,
                post,
                turns,
                |t, network| t.drop_route(network, 24, ROUTER),
            ),
        }
    }
}

// The values of a case, zeros where it does not fit its form: it is then made no turns, and is no error.
fn values(line: &[u8], form: &[u8]) -> [u64; MOST_VALUES] {
    read_record(line, form).map_or([0; MOST_VALUES], |record| record.values)
}

fn size(v: u64) -> usize {
    usize::try_from(v).unwrap_or(0)
}

// Lines of calls from standard input, as they come, and their answers to standard output.
ghost use Rattle.std.specs.Prelude.{◌≤◌, length};

use crate::calls::Replay;
use sheet::Malformed;
use std::io;
use std::io::Read;
use trace::lines_in;

// So many octets of answers are handed on, fewer when no call is there.
const ENOUGH: usize = 65536;

// Reads and answers until the input ends or a record is malformed.
pub fn run(
    rt: &(impl Input + Print + Eprint),
    text: &mut [u8],
    replay: &mut Replay<'_>,
) -> io::Result<()> {
    // There is no heap: the room is lent, and its first so many octets are what was read and not yet answered.
    let mut have = 0;
    // A loop has to end, and input need not: a bound that no input reaches.
    for _turn in 0..u64::MAX {
        let read = rt.reader().read(&mut text[have..])?;
        let all = have + read;
        let end = whole(&text[..all], read);
        let outcome = answer(rt, &text[..end], replay)?;
        hand_on(rt, replay)?;
        if let Err(why) = outcome {
            return eprintln!(rt; "replay: line {}: {why}", replay.lines);
        }
        if read == 0 {
            return Ok(());
        }
        text.copy_within(end..all, 0);
        have = all - end;
    }
    Ok(())
}

// Where the last whole line ends. At the end of the input, as where a line fills all the room, the last one may have no LF.
fn whole(text: &[u8], read: usize) -> usize
    ensures { result ≤ length text.now }
{
    if read == 0 {
        return text.len();
    }
    text.iter()
        .rposition(|c| *c == b'\n')
        .map_or(0, |at| at + 1)
}

fn answer(
    rt: &impl Print,
    text: &[u8],
    replay: &mut Replay<'_>,
) -> io::Result<Result<(), Malformed>> {
    for line in lines_in(text) {
        let outcome = replay.line(line);
        if outcome.is_err() {
            return Ok(outcome);
        }
        if ENOUGH <= replay.sheet.text().len() {
            hand_on(rt, replay)?;
        }
    }
    Ok(Ok(()))
}

fn hand_on(rt: &impl Print, replay: &mut Replay<'_>) -> io::Result<()> {
    rt.write_all(replay.sheet.text())?;
    replay.sheet.clear();
    Ok(())
}

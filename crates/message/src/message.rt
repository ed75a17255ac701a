// A client's message: its fields, its length, and its octets.
#![tactic(auto, using(crate::proofs::Messages::message_length_lem))]

ghost use Rattle.std.specs.Prelude.{◌≡◌, ◌+◌, ◌≤◌, length, option_copied};
ghost use Rattle.message.specs.Written.{measured};
ghost use Rattle.message.specs.Pieces.{message_with, Wrote};

use crate::header::put_header;
use crate::lists::{Lists, ShortLists};
use crate::options::{put_given, put_last, put_who};
use reasons::Refusal;

// A message's fields but for the lists. A number that is missing leaves its option out.
#[derive(Clone, Copy, Debug, PartialEq, Eq)]
pub struct Message {
    // option 53, the message type
    pub kind: u8,
    pub id: u32,
    // the client address of the header
    pub client: u32,
    pub hardware: [u8; 6],
    // options 50, 54 and 57
    pub requested: Option<u32>,
    pub server: Option<u32>,
    pub size: Option<u32>,
}

// The length of a message, before it is written.
pub fn message_len(m: Message, lists: Lists<'_>) -> Result<usize, Refusal>
    ensures { result ≡ measured m lists.entry.name.now (option_copied lists.entry.list) lists.entry.extra.now }
{
    let short = lists.short()?;
    Ok(total(m, short))
}

// The length of a message: the header has 240 octets, options 53 and 61 have 12, the end mark has 1, and the other options
// as many as are given.
pub(crate) fn total(m: Message, short: ShortLists<'_>) -> usize
    ensures value { result ≡ length (message_with m short.entry.lists) }
    ensures most { result ≤ 655 }
{
    let name = short.lists.name;
    let named = if name.is_empty() { 0 } else { name.len() + 2 };
    let requested = m.requested.map_or(0, |_| 6);
    let server = m.server.map_or(0, |_| 6);
    let size = m.size.map_or(0, |_| 4);
    let listed = short.lists.list.map_or(0, |codes| codes.len() + 2);
    253 + named + requested + server + size + listed + short.lists.extra.len()
}

// A message at `at` of buf.
pub(crate) fn put_message(buf: &mut [u8], at: usize, m: Message, short: ShortLists<'_>) -> usize
    requires { at + length (message_with m short.lists) ≤ length buf.old }
    ensures { Wrote at (message_with m short.entry.lists) buf.old result buf.new }
{
    let lists = short.lists;
    let n1 = put_header(buf, at, m);
    let n2 = put_who(buf, n1, m, lists.name);
    let n3 = put_given(buf, n2, m);
    put_last(buf, n3, lists.list, lists.extra)
}

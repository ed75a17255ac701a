// Writing: characters, numbers, octets and whole records, over a lent buffer from a place on, as far as there is room. Numbers
// are written by hand: std says what `write!` writes where that is Ok, but not that it is, and this can not fail.
ghost use Rattle.std.specs.Prelude.{◌≡◌, [], ◌∷◌, ◌<◌, ◌/◌, ◌%◌, take, drop, get_or};
ghost use Rattle.trace.specs.Texts.{digit_char_of, decimal_text, address_text, octets_text, field_text};
ghost use Rattle.trace.specs.Written.{Wrote, Writes, field_of, line_of, part_text, part_width};

use crate::form::{Gap, Part, Parts};
use crate::number::DOT;
use octets::span::up_to;

// The largest number that one digit writes.
const LAST_DIGIT: u64 = 9;

// The character of a digit.
#[tactic(auto, unfolding(crate::specs::Texts::digit_char_of))]
fn digit_char(d: u8) -> u8
    requires { d < 16 }
    ensures { result ≡ digit_char_of d }
{
    if d < 10 { b'0' + d } else { b'a' - 10 + d }
}

// The value at a place, 0 where there is none.
fn value_at(values: &[u64], i: usize) -> u64
    ensures { result ≡ get_or values.now i 0 }
{
    values.get(i).copied().unwrap_or(0)
}

// `count` octets from a place on, as far as there are any.
fn some(source: &[u8], place: u64, count: u64) -> &[u8]
    ensures { result.now ≡ take count (drop place source.now) }
{
    match source.get(place as usize..) {
        Some(rest) => up_to(rest, count as usize),
        None => &[],
    }
}

impl Part {
    // How many values it takes.
    fn width(self) -> usize
        ensures { result ≡ part_width self }
    {
        match self {
            Part::Letter(_) => 0,
            Part::Gap(Gap::Octets) => 2,
            Part::Gap(_) => 1,
        }
    }
}

// One character over a buffer, at a place; the place behind it.
fn put_char(buf: &mut [u8], at: usize, c: u8) -> usize
    ensures { Wrote at (c ∷ []) buf.old result buf.new }
{
    if at < buf.len() {
        buf[at] = c;
        return at + 1;
    }
    at
}

// An octet, as two digits.
fn put_octet(buf: &mut [u8], at: usize, octet: u8) -> usize
    ensures { Wrote at (digit_char_of (octet / 16) ∷ digit_char_of (octet % 16) ∷ []) buf.old result buf.new }
{
    let high = digit_char(octet / 16);
    let low = digit_char(octet % 16);
    let next = put_char(buf, at, high);
    put_char(buf, next, low)
}

// Octets, two digits each. The place is a local: kept in a Writer it is stored and loaded at each digit, a quarter of the time.
fn put_octets(buf: &mut [u8], at: usize, octets: &[u8]) -> usize
    ensures { Wrote at (octets_text octets.now) buf.old result buf.new }
{
    let mut place = at;
    for octet in octets {
        place = put_octet(buf, place, *octet);
    }
    place
}

// A place in a lent buffer. Text is written from there on, and the place is behind it then; where that is the buffer's end,
// the text may have been cut.
#[derive(Drop)]
struct Writer<'a> {
    buf: &'a mut [u8],
    at: usize,
}

impl Writer<'_> {
    // One character.
    fn put(&mut self, c: u8)
        ensures { Writes (c ∷ []) self.old self.new }
    {
        self.at = put_char(self.buf, self.at, c);
    }

    // Octets, two digits each.
    fn put_octets(&mut self, octets: &[u8])
        ensures { Writes (octets_text octets.now) self.old self.new }
    {
        self.at = put_octets(self.buf, self.at, octets);
    }

    // A number in decimal.
    fn put_decimal(&mut self, n: u64)
        ensures { Writes (decimal_text n) self.old self.new }
    {
        if n <= LAST_DIGIT {
            self.put(b'0' + n as u8);
        } else {
            self.put_decimal(n / 10);
            self.put(b'0' + (n % 10) as u8);
        }
    }

    // A dot and a number.
    fn put_dotted(&mut self, n: u64)
        ensures { Writes (46 ∷ decimal_text n) self.old self.new }
    {
        self.put(DOT);
        self.put_decimal(n);
    }

    // An address.
    fn put_address(&mut self, v: u64)
        ensures { Writes (address_text v) self.old self.new }
    {
        self.put_decimal(v / 16777216 % 256);
        self.put_dotted(v / 65536 % 256);
        self.put_dotted(v / 256 % 256);
        self.put_dotted(v % 256);
    }

    // A gap, filled.
    fn put_gap(&mut self, gap: Gap, values: &[u64], source: &[u8])
        ensures { Writes (field_text gap (field_of gap values.now source.now)) self.old self.new }
    {
        let value = value_at(values, 0);
        match gap {
            Gap::Octets => {
                let count = value_at(values, 1);
                self.put_octets(some(source, value, count));
            }
            Gap::Address => self.put_address(value),
            _ => self.put_decimal(value),
        }
    }

    // A part of a form.
    fn put_part(&mut self, part: Part, values: &[u64], source: &[u8])
        ensures { Writes (part_text part values.now source.now) self.old self.new }
    {
        match part {
            Part::Letter(letter) => self.put(letter),
            Part::Gap(gap) => self.put_gap(gap, values, source),
        }
    }

    // A record.
    fn put_record(&mut self, form: &[u8], values: &[u64], source: &[u8])
        ensures { Writes (line_of form.now values.now source.now) self.old self.new }
    {
        let mut rest = values;
        for part in Parts(form) {
            self.put_part(part, rest, source);
            rest = &rest[part.width().min(rest.len())..];
        }
    }
}

// A record, without the LF behind it: the form's text, each gap filled with the next of the values; octets (%x) take two, the
// place of the first in `source` and how many they are. It is written over `buf` from `at` on, as far as there is room, and
// the answer is the place behind it; where that is the buffer's end, the text may have been cut. Values and source stay two
// slices: of a struct that holds references a contract says which of its two moments it means, as it comes or as it goes.
pub fn write_record(buf: &mut [u8], at: usize, form: &[u8], values: &[u64], source: &[u8]) -> usize
    ensures { Wrote at (line_of form.now values.now source.now) buf.old result buf.new }
{
    let mut writer = Writer { buf, at };
    writer.put_record(form, values, source);
    writer.at
}

// Lines of a text, and what a line begins with.
ghost use Rattle.std.specs.Prelude.{◌≡◌};
ghost use Rattle.std.specs.Iterator.{YieldsFirstRef, item_count};
ghost use Rattle.trace.specs.Lines.{line_length, line_at, after_line, lines_of, lines_left, begins_with, starts_with};

// LF, with which a line ends.
const LINE_END: u8 = b'\n';

// How many octets stand before the first LF, all where there is none.
pub fn line_len(text: &[u8]) -> usize
    ensures { result ≡ line_length text.now }
{
    text.iter()
        .position(|c| *c == LINE_END)
        .unwrap_or(text.len())
}

// The line that begins at a place, without its LF; an empty one at the text's end and behind it.
pub fn line_at(text: &[u8], at: usize) -> &[u8]
    ensures { result.now ≡ line_at at text.now }
{
    match text.get(at..) {
        Some(rest) => &rest[..line_len(rest)],
        None => &[],
    }
}

// Where the line after the one at a place begins: behind the LF, or at the text's end.
pub fn after_line(text: &[u8], at: usize) -> usize
    ensures { result ≡ after_line at text.now }
{
    match text.get(at..) {
        Some(rest) => at + (line_len(rest) + 1).min(rest.len()),
        None => at,
    }
}

// What is left of the lines of a text, in order.
#[derive(Clone, Copy, Debug)]
pub struct TextLines<'a> {
    rest: &'a [u8],
}

// The lines of a text, in order, each without its LF; the last one may have none. What programs read goes through these.
pub fn lines_in(text: &[u8]) -> TextLines<'_>
    ensures { lines_left result ≡ lines_of text.now }
{
    TextLines { rest: text }
}

impl<'a> Iterator for TextLines<'a> {
    type Item = &'a [u8];

    ghost next_gives = { YieldsFirstRef lines_left };

    ghost remaining = { item_count lines_left };

    fn next(&mut self) -> Option<&'a [u8]> {
        let text = self.rest;
        if text.is_empty() {
            return None;
        }
        self.rest = &text[after_line(text, 0)..];
        Some(line_at(text, 0))
    }
}

// Whether the line begins with these characters.
pub fn begins(line: &[u8], start: &[u8]) -> bool
    ensures { result ≡ begins_with start.now line.now }
{
    line.starts_with(start)
}

// Whether the text begins with this character.
pub(crate) fn starts(text: &[u8], c: u8) -> bool
    ensures { result ≡ starts_with c text.now }
{
    text.starts_with(&[c])
}

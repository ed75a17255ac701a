// Digits, and octets that are written as two digits each.
ghost use Rattle.std.specs.Prelude.{◌≡◌, ◌<◌, IfSome};
ghost use Rattle.trace.specs.Digits.{digit_of, octet_of, octet_at, pairs_of};

// The value of a digit.
#[tactic(auto, unfolding(crate::specs::Digits::digit_of))]
pub(crate) fn digit(c: u8) -> Option<u8>
    ensures value { result ≡ digit_of c }
    ensures below { IfSome result (λ d. d < 16) }
{
    match c {
        b'0'..=b'9' => Some(c - b'0'),
        b'a'..=b'f' => Some(c - b'a' + 10),
        _ => None,
    }
}

// The octet of two digits.
#[tactic(auto, unfolding(crate::specs::Digits::octet_of))]
fn octet(a: u8, b: u8) -> Option<u8>
    ensures { result ≡ octet_of a b }
{
    Some(digit(a)? * 16 + digit(b)?)
}

// The octet whose two digits stand at a place of a line, none where there are no two digits.
pub fn octet_at(line: &[u8], place: usize) -> Option<u8>
    ensures { result ≡ octet_at place line.now }
{
    match line.get(place..)? {
        [a, b, ..] => octet(*a, *b),
        _ => None,
    }
}

// How many octets a text begins with.
pub(crate) fn pair_count(text: &[u8]) -> usize
    ensures { result ≡ pairs_of text.now }
{
    text.chunks_exact(2)
        .take_while(|pair| octet_at(pair, 0).is_some())
        .count()
}

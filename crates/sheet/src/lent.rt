// The buffer that a poll is lent.

// Fills it: the octet at place i is `fill` + i modulo 256.
pub fn lend(buf: &mut [u8], fill: u32) {
    for (i, octet) in buf.iter_mut().enumerate() {
        *octet = lent_at(i, fill);
    }
}

fn lent_at(i: usize, fill: u32) -> u8 {
    ((fill & 0xff) as u8).wrapping_add((i & 0xff) as u8)
}

// How many octets there are up to the last that is not as it was lent.
pub fn changed(buf: &[u8], fill: u32) -> usize {
    buf.iter()
        .enumerate()
        .rposition(|(i, octet)| *octet != lent_at(i, fill))
        .map_or(0, |last| last + 1)
}

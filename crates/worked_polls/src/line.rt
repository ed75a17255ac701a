// What is read of a line.

// The number in each part of it, 0 where there is none; the part behind the tenth goes on with the first.
pub fn numbers_in(line: &[u8]) -> [u32; 10] {
    let mut numbers = [0; 10];
    for (place, part) in line.split(|c| *c == b',').enumerate() {
        numbers[place % 10] = followed_by(numbers[place % 10], part);
    }
    numbers
}

// A number with all digits of a part behind it, modulo 2^32.
fn followed_by(number: u32, part: &[u8]) -> u32 {
    part.iter()
        .filter_map(|c| char::from(*c).to_digit(10))
        .fold(number, |number: u32, digit| {
            number.wrapping_mul(10).wrapping_add(digit)
        })
}

// A sheet that answers are written on.
use crate::form::Form;
use octets::span::up_to;

// Zeros, to be written many at a time.
const ZEROS: [u8; 256] = [0; 256];

// There is no heap: the room is lent, and its first so many octets are written.
#[derive(Drop)]
pub struct Sheet<'a> {
    room: &'a mut [u8],
    filled: usize,
}

impl<'a> Sheet<'a> {
    // With nothing on it.
    pub fn new(room: &'a mut [u8]) -> Sheet<'a> {
        Sheet { room, filled: 0 }
    }

    // A line: the form's text, each gap filled with the next of the values.
    pub fn write<F: Into<Form>>(&mut self, form: F, values: &[u64]) {
        self.write_octets(form, values, &[]);
    }

    // A line with octets: `%x` takes two of the values, the place of the first in `octets` and how many they are.
    pub fn write_octets<F: Into<Form>>(&mut self, form: F, values: &[u64], octets: &[u8]) {
        self.begin(form.into().text(), values, octets);
        self.end();
    }

    // The same, with so many zeros more behind its last octet. Values and octets stay two slices, as in trace's
    // write_record.
    pub fn write_padded<F: Into<Form>>(
        &mut self,
        form: F,
        values: &[u64],
        octets: &[u8],
        zeros: usize,
    ) {
        self.begin(form.into().text(), values, octets);
        // Many at a time: an octet by itself would cost a record each.
        for _ in 0..zeros / ZEROS.len() {
            self.begin(b"%x", &[0, ZEROS.len() as u64], &ZEROS);
        }
        self.begin(b"%x", &[0, (zeros % ZEROS.len()) as u64], &ZEROS);
        self.end();
    }

    fn begin(&mut self, form: &[u8], values: &[u64], octets: &[u8]) {
        self.filled = trace::write_record(self.room, self.filled, form, values, octets);
    }

    fn end(&mut self) {
        self.begin(b"\n", &[], &[]);
    }

    // What was written.
    pub fn text(&self) -> &[u8] {
        up_to(self.room, self.filled)
    }

    pub fn clear(&mut self) {
        self.filled = 0;
    }
}

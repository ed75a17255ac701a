// The text that a program is run on.
ghost use Rattle.std.specs.Prelude.{◌≤◌, length, IfOk};

use std::io;
use std::io::Read;

// Reads until the input ends or there is no room; what was read. std's read_to_end wants a Vec, and there is no heap here.
pub fn filled<'a>(rt: &impl Input, text: &'a mut [u8]) -> io::Result<&'a [u8]>
    ensures { IfOk result (λ got. length got.now ≤ length text.old) }
{
    let mut have = 0;
    while have < text.len() {
        let n = rt.reader().read(&mut text[have..])?;
        if n == 0 {
            break;
        }
        have += n;
    }
    Ok(&text[..have])
}

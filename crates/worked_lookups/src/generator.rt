// A draw from a generator that is lent.
ghost use Rattle.std.specs.Prelude.{◌≡◌};
ghost use Rattle.clock.specs.Generator.{drawn32, generator};

use clock::{Drawn, Rand};
use std::io;

// "State 0 draws 3; the state becomes 0x7590ef39", which is 1,972,432,697. By rand.rs it draws 4,260,165,794 then.
pub fn examples(rt: &impl Print) -> io::Result<()> {
    let first = drawn(0);
    let state = first.rand.state;
    let second = drawn(state);
    println!(rt;
        "a lent generator of state 0 draws {}, and its state becomes {state}; then it draws {}",
        first.value, second.value
    )
}

// A number drawn from a generator of this state that is lent, and the generator after it.
fn drawn(state: u64) -> Drawn<u32>
    ensures { result ≡ drawn32 (generator state) }
{
    let mut rand = Rand { state };
    let value = clock::draw(&mut rand);
    Drawn { rand, value }
}

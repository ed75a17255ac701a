// A small generator of random numbers, sPCG32, for transaction ids. It is not fit for secrets.
#![tactic(auto, unfolding(crate::specs::Generator::next_state, crate::specs::Generator::output_of, crate::specs::Generator::drawn32, crate::specs::Generator::drawn16))]

ghost use Rattle.std.specs.Prelude.{◌≡◌, ◌/◌, ◌%◌, ◌^◌, bit_xor};
ghost use Rattle.clock.specs.Generator.{next_state, output_of, generator, drawn32, drawn16};

use crate::product::{WORD, wrapping_mul_u64};

const MULTIPLIER: u64 = 0xbb2efcec3c39611d;

const INCREMENT: u64 = 0x7590ef39;

#[derive(Clone, Copy, Debug, PartialEq, Eq)]
pub struct Rand {
    pub state: u64,
}

// A number drawn, and the generator after it.
#[derive(Clone, Copy, Debug, PartialEq, Eq)]
pub struct Drawn<T> {
    pub rand: Rand,
    pub value: T,
}

impl Rand {
    pub fn new(seed: u64) -> Rand
        ensures { result ≡ generator seed }
    {
        Rand { state: seed }
    }

    pub fn rand_u32(self) -> Drawn<u32>
        ensures { result ≡ drawn32 self }
    {
        let state = next_state(self.state);
        Drawn {
            rand: Rand { state },
            value: output(state),
        }
    }

    pub fn rand_u16(self) -> Drawn<u16>
        ensures { result ≡ drawn16 self }
    {
        let Drawn { rand, value } = self.rand_u32();
        Drawn {
            rand,
            value: halves_joined(value),
        }
    }
}

// Draws from a generator that is lent, and changes it.
pub fn draw(rand: &mut Rand) -> u32
    ensures { (rand.new ≡ (drawn32 rand.old).rand) × (result ≡ (drawn32 rand.old).value) }
{
    let drawn = rand.rand_u32();
    *rand = drawn.rand;
    drawn.value
}

fn next_state(state: u64) -> u64
    ensures { result ≡ next_state state }
{
    wrapping_mul_u64(state, MULTIPLIER).wrapping_add(INCREMENT)
}

// 32 bits of a state, from a place that its top 3 bits choose.
fn output(state: u64) -> u32
    ensures { result ≡ output_of state }
{
    let shift = 29 - (state >> 61);
    ((state >> shift) % WORD) as u32
}

fn halves_joined(n: u32) -> u16
    ensures { result ≡ bit_xor (n % 2 ^ 16) (n / 2 ^ 16) }
{
    ((n % 65536) as u16) ^ ((n >> 16) as u16)
}

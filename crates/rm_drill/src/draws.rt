// The draws of a seed.

ghost use Rattle.std.specs.Prelude.{◌≡◌, ◌<◌, ◌%◌};
ghost use Rattle.rm_drill.specs.Draws.{drawn, next_state, stirred};

use std::marker::Model;

// What is added to the state at each draw.
const STEP: u64 = 0x9E37_79B9_7F4A_7C15;

/// The draws of a seed, one after the other: the generator splitmix64 (Steele, Lea and Flood 2014). Its state is seen as a number.
#[derive(Drop)]
pub struct Draws {
    state: u64,
}

impl Model for Draws {
    ghost use Rattle.std.specs.Prelude.{ℕ};

    ghost Value = { ℕ };

    ghost view = { λ d. d.state };
}

// A number and itself shifted right by 30 bits, times a factor.
fn stir_30(z: u64) -> u64
    ensures { result ≡ stirred z 30 0xBF58476D1CE4E5B9 }
{
    (z ^ (z >> 30)).wrapping_mul(0xBF58_476D_1CE4_E5B9)
}

// A number and itself shifted right by 27 bits, times a factor.
fn stir_27(z: u64) -> u64
    ensures { result ≡ stirred z 27 0x94D049BB133111EB }
{
    (z ^ (z >> 27)).wrapping_mul(0x94D0_49BB_1331_11EB)
}

impl Draws {
    /// The draws of this seed.
    pub fn new(seed: u64) -> Draws
        ensures { result ≡ seed }
    {
        Draws { state: seed }
    }

    /// The next draw, any number of 64 bits.
    pub fn next(&mut self) -> u64
        ensures state { self.new ≡ next_state self.old }
        ensures drawn { result ≡ drawn (next_state self.old) }
    {
        self.state = self.state.wrapping_add(STEP);
        let z = stir_27(stir_30(self.state));
        z ^ (z >> 31)
    }

    /// The next draw modulo k, a number below k.
    pub fn below(&mut self, k: u64) -> u64
        requires { 0 < k }
        ensures state { self.new ≡ next_state self.old }
        ensures drawn { result ≡ drawn (next_state self.old) % k }
        ensures below { result < k }
    {
        self.next() % k
    }
}

//! The numbers that a script is made of.
ghost use Rattle.std.specs.Prelude.{◌≡◌, ◌<◌, ◌^◌};
ghost use Rattle.made_script.specs.Drawing.{after as after_of, drawn as drawn_of, start as start_of};

/// The numbers are below this.
const RANGE: u64 = 1 << 31;

/// The number before the first one.
pub fn start(seed: u64) -> u64
    ensures value { result ≡ start_of seed }
    ensures range { result < 2 ^ 31 }
{
    seed % RANGE
}

/// The number behind another.
pub fn after(x: u64) -> u64
    requires { x < 2 ^ 31 }
    ensures value { result ≡ after_of x }
    ensures range { result < 2 ^ 31 }
{
    (x * 1_103_515_245 + 12_345) % RANGE
}

/// What is drawn of a number: its 15 upper bits.
pub fn drawn(x: u64) -> u32
    requires { x < 2 ^ 31 }
    ensures value { result ≡ drawn_of x }
    ensures range { result < 2 ^ 15 }
{
    (x >> 16) as u32
}

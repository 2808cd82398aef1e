//! How keys are hashed.

ghost use Rattle.std.specs.Prelude.{◌≡◌, ◌<◌, length};
ghost use Rattle.vsl_top.specs.inside.Hashing.{fed, halves_joined};

use std::hash::{BuildHasher, Hasher};

/// An odd number of 64 bits, by which what is told is spread.
const SPREAD: u64 = 0x9e37_79b9_7f4a_7c15;

/// What a log told so far, in 64 bits.
#[derive(Clone, Copy)]
pub(crate) struct Told {
    state: u64,
}

impl Told {
    /// Nothing was told.
    pub(crate) fn new() -> Told {
        Told { state: SPREAD }
    }

    /// Takes in a number.
    #[inline(always)]
    fn take_word(&mut self, word: u64) {
        self.state = (self.state ^ word).wrapping_mul(SPREAD).rotate_left(29);
    }

    /// Takes in some bytes of the log.
    pub(crate) fn take(&mut self, bytes: &[u8]) {
        let mut left = bytes;
        while let [a, b, c, d, e, f, g, h, rest @ ..] = left {
            self.take_word(u64::from_le_bytes([*a, *b, *c, *d, *e, *f, *g, *h]));
            left = rest;
        }
        for byte in left {
            self.take_word(u64::from(*byte));
        }
    }
}

/// The two halves of the product of two numbers, joined by xor.
#[inline(always)]
fn halves_joined(a: u64, b: u64) -> u64
    ensures { result ≡ halves_joined a b }
{
    let product = a as u128 * b as u128;
    (product & 0xffff_ffff_ffff_ffff) as u64 ^ (product >> 64) as u64
}

/// Hashes a key: eight of its bytes at once are multiplied by a number that whoever chose the bytes didn't know.
#[derive(Clone, Copy)]
pub(crate) struct KeyHasher {
    state: u64,
    factor: u64,
}

impl Hasher for KeyHasher {
    ghost write = { fed };

    ghost finish = { λ h. h.state };

    fn finish(&self) -> u64 {
        self.state
    }

    fn write(&mut self, bytes: &[u8]) {
        let mut left = bytes;
        while let [a, b, c, d, e, f, g, h, rest @ ..] = left {
            let word = u64::from_le_bytes([*a, *b, *c, *d, *e, *f, *g, *h]);
            self.state = halves_joined(self.state ^ word, self.factor);
            left = rest;
        }
        self.write_few(left);
    }
}

impl KeyHasher {
    /// Takes in fewer than eight bytes, one by one.
    #[tactic(auto, using(crate::proofs::HashingLemmas::one_byte))]
    fn write_few(&mut self, bytes: &[u8])
        requires { length bytes.now < 8 }
        ensures { self.new ≡ fed self.old bytes.now }
    {
        let mut left = bytes;
        while let [byte, rest @ ..] = left {
            self.state = halves_joined(self.state ^ u64::from(*byte), self.factor);
            left = rest;
        }
    }
}

/// Makes the hashers of keys, by numbers that follow from what a log told. Whoever chooses texts doesn't know them, and so not
/// which texts are hashed alike.
#[derive(Clone, Copy)]
pub(crate) struct Seed {
    first: KeyHasher,
}

impl Seed {
    /// The seed that follows from what was told.
    pub(crate) fn of(told: &Told) -> Seed {
        let mut more = *told;
        more.take_word(SPREAD);
        Seed {
            first: KeyHasher {
                state: told.state,
                factor: more.state | 1,
            },
        }
    }
}

impl BuildHasher for Seed {
    type Hasher = KeyHasher;

    ghost build_hasher = { λ s. s.first };

    fn build_hasher(&self) -> KeyHasher {
        self.first
    }
}

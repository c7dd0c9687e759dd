//! A quick hash of keys that consist of numbers.
ghost use Rattle.std.specs.Prelude.{◌≡◌, fold};
ghost use Rattle.task_model.specs.Hashes as specs;

use std::hash::Hasher;

/// An odd number whose bits look like chance.
const MULTIPLIER: u64 = 0x9e37_79b9_7f4a_7c15;

/// Hashes numbers: each is one sum behind one product.
///
/// It starts the same in each run, so that whoever picks the keys can make them collide. That costs
/// time, and changes no answer.
#[derive(Clone, Copy, Default)]
pub struct NumberHasher {
    state: u64,
}

/// The state after one number more.
#[inline(always)]
fn added(state: u64, number: u64) -> u64
    ensures { result ≡ specs.hashed_with state number }
{
    state.wrapping_mul(MULTIPLIER).wrapping_add(number)
}

/// The state after bytes that are numbers each.
fn each_added(state: u64, bytes: &[u8]) -> u64
    ensures { result ≡ fold specs.hashed_with state bytes.now }
{
    let mut hash = state;
    for byte in bytes {
        hash = added(hash, u64::from(*byte));
    }
    hash
}

/// The state after bytes: four and eight are one number, the lowest byte first.
#[inline(always)]
fn written(state: u64, bytes: &[u8]) -> u64
    ensures { result ≡ specs.written state bytes.now }
{
    match bytes.len() {
        4 => added(
            state,
            u64::from(u32::from_le_bytes([bytes[0], bytes[1], bytes[2], bytes[3]])),
        ),
        8 => added(
            state,
            u64::from_le_bytes([
                bytes[0], bytes[1], bytes[2], bytes[3], bytes[4], bytes[5], bytes[6], bytes[7],
            ]),
        ),
        _ => each_added(state, bytes),
    }
}

impl Hasher for NumberHasher {
    ghost write = { λ s bytes. record { state = specs.written s.state bytes } };

    ghost finish = { λ s. specs.finished s.state };

    /// The upper half of one more product, in which each bit depends on all that was added.
    #[inline(always)]
    fn finish(&self) -> u64 {
        (self.state ^ self.state >> 32).wrapping_mul(MULTIPLIER) >> 32
    }

    #[inline(always)]
    fn write(&mut self, bytes: &[u8]) {
        self.state = written(self.state, bytes);
    }

    /// A length, as its eight bytes would be.
    #[inline(always)]
    fn write_usize(&mut self, i: usize) {
        self.state = added(self.state, i as u64);
    }
}

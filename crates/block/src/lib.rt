// A block of 128 bits as two halves of 64, its bytes, and the counter's sum over all 128 bits.
#![tactic(auto)]

ghost use Rattle.std.specs.Prelude.{◌≡◌, ◌+◌, ◌%◌, ◌^◌, ◌<◌};
ghost use Rattle.block.specs.Bytes.{number, big_endian, window};
ghost use Rattle.block.specs.Number.{block_number};

use std::array;

// A block: hi holds its first eight bytes, most significant first, and lo the last eight.
#[derive(Clone, Copy)]
pub struct Block {
    pub hi: u64,
    pub lo: u64,
}

// The number of the eight bytes of s from place at on, 0 past its end.
fn load_half(s: &[u8], at: usize) -> u64
    requires { at < 2 ^ 63 }
    ensures { result ≡ number (window s.now at 8) }
{
    u64::from_be_bytes(array::from_fn(|k| s.get(at + k).copied().unwrap_or(0)))
}

// The block of the 16 bytes of s from place at on, 0 past its end.
pub fn load_block(s: &[u8], at: usize) -> Block
    requires { at < 2 ^ 62 }
    ensures { block_number result ≡ number (window s.now at 16) }
{
    Block {
        hi: load_half(s, at),
        lo: load_half(s, at + 8),
    }
}

// The 16 bytes of a block.
pub fn block_bytes(b: Block) -> [u8; 16]
    ensures { result ≡ big_endian 16 (block_number b) }
{
    ((u128::from(b.hi) << 64) | u128::from(b.lo)).to_be_bytes()
}

// The block whose number is n more, over all 128 bits.
pub fn add(b: Block, n: u64) -> Block
    ensures { block_number result ≡ (block_number b + n) % 2 ^ 128 }
{
    let (lo, carry) = b.lo.overflowing_add(n);
    Block {
        hi: b.hi.wrapping_add(u64::from(carry)),
        lo,
    }
}

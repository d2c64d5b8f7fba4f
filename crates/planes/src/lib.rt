// The cipher of AES-256 (FIPS 197, section 5.1) on a lane: 16 blocks in 32 words, eight bit planes for each row of the state, the last
// row first.
//
// A step takes its words by value and returns them. No branch, index or shift depends on the words.
#![tactic(auto)]

ghost use Rattle.std.specs.Prelude.{◌≡◌, ◌<◌};
ghost use Rattle.planes.specs.Rounds.{right_row, added_rows, added_lane, mixed_lane, moved_lane, every_block, key_lane};
ghost use Rattle.planes.specs.Theorems.{PlaneLaws};

use std::array;

// SHIFTROWS (5.1.2) of a row: row r is turned right by 16 * r places.
fn right_row(x: [u64; 8], k: u32) -> [u64; 8]
    requires { (0 < k) × (k < 64) }
    ensures { result ≡ right_row k x }
{
    x.map(|w| w.rotate_right(k))
}

// ADDROUNDKEY (5.1.4) of four rows.
fn keyed(a: [u64; 8], b: [u64; 8], c: [u64; 8], d: [u64; 8], k: &[u64; 32]) -> [u64; 32]
    ensures { result ≡ added_rows a b c d k.now }
{
    lanes::joined(
        mix::sum_row(a, lanes::row(k, 0)),
        mix::sum_row(b, lanes::row(k, 8)),
        mix::sum_row(c, lanes::row(k, 16)),
        mix::sum_row(d, lanes::row(k, 24)),
    )
}

// The first ADDROUNDKEY.
pub fn added(x: [u64; 32], k: &[u64; 32]) -> [u64; 32]
    ensures { result ≡ added_lane k.now x }
{
    keyed(
        lanes::row(&x, 0),
        lanes::row(&x, 8),
        lanes::row(&x, 16),
        lanes::row(&x, 24),
        k,
    )
}

// SHIFTROWS, MIXCOLUMNS and ADDROUNDKEY.
pub fn mixed(x: [u64; 32], k: &[u64; 32]) -> [u64; 32]
    ensures { result ≡ mixed_lane k.now x }
{
    let a = right_row(lanes::row(&x, 0), 48);
    let b = right_row(lanes::row(&x, 8), 32);
    let c = right_row(lanes::row(&x, 16), 16);
    let d = lanes::row(&x, 24);
    keyed(
        mix::mix_row(a, d, c, b),
        mix::mix_row(b, a, d, c),
        mix::mix_row(c, b, a, d),
        mix::mix_row(d, c, b, a),
        k,
    )
}

// SHIFTROWS and the last ADDROUNDKEY.
pub fn moved(x: [u64; 32], k: &[u64; 32]) -> [u64; 32]
    ensures { result ≡ moved_lane k.now x }
{
    keyed(
        right_row(lanes::row(&x, 0), 48),
        right_row(lanes::row(&x, 8), 32),
        right_row(lanes::row(&x, 16), 16),
        lanes::row(&x, 24),
        k,
    )
}

// The bits of block n in a word, in each of the 16 blocks.
fn every_block(x: u64, n: usize) -> u64
    requires { n < 16 }
    ensures { result ≡ every_block n x }
{
    ((x >> n) & 0x0001_0001_0001_0001) * 0xffff
}

// Round key n, which is block n of the lane k, in each of the 16 blocks.
pub fn round_key(k: &[u64; 32], n: usize) -> [u64; 32]
    requires { n < 16 }
    ensures { result ≡ key_lane k.now n }
{
    array::from_fn(|i| every_block(k[i], n))
}

// Under the round keys on bit planes each block of a lane becomes its cipher: nothing runs, and the check has to prove it.
pub fn plane_laws()
    ensures { PlaneLaws }
{}

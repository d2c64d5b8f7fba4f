// A row of MIXCOLUMNS (FIPS 197, section 5.1.3) on 64 bytes at once, word b of a row holding bit b of every byte.
#![tactic(auto)]

ghost use Rattle.std.specs.Prelude.{◌≡◌};
ghost use Rattle.mix.specs.Mix.{sum_words, mix_words};
ghost use Rattle.mix.specs.Theorems.{MixLaws};

use std::array;

// The sum of two rows.
pub fn sum_row(a: [u64; 8], b: [u64; 8]) -> [u64; 8]
    ensures { result ≡ sum_words a b }
{
    array::from_fn(|i| a[i] ^ b[i])
}

// A row of MIXCOLUMNS, from the rows of its column, its own first.
#[tactic(auto, unfolding(crate::specs::Mix::sum_words, crate::specs::Mix::doubled_words, crate::specs::Mix::mix_words))]
pub fn mix_row(a: [u64; 8], b: [u64; 8], c: [u64; 8], d: [u64; 8]) -> [u64; 8]
    ensures { result ≡ mix_words a b c d }
{
    let high = a[7] ^ b[7];
    [
        high ^ b[0] ^ (c[0] ^ d[0]),
        a[0] ^ b[0] ^ high ^ b[1] ^ (c[1] ^ d[1]),
        a[1] ^ b[1] ^ b[2] ^ (c[2] ^ d[2]),
        a[2] ^ b[2] ^ high ^ b[3] ^ (c[3] ^ d[3]),
        a[3] ^ b[3] ^ high ^ b[4] ^ (c[4] ^ d[4]),
        a[4] ^ b[4] ^ b[5] ^ (c[5] ^ d[5]),
        a[5] ^ b[5] ^ b[6] ^ (c[6] ^ d[6]),
        a[6] ^ b[6] ^ b[7] ^ (c[7] ^ d[7]),
    ]
}

// The laws of specs/Theorems.antt: nothing runs, and the check has to prove them.
pub fn mix_laws()
    ensures { MixLaws }
{}

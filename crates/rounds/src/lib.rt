// The state of AES and the steps of a round (FIPS 197, sections 3.4 and 5.1).
//
// The state is four columns of four bytes and goes by value from step to step. The S-box is lent (crate `field` says why).
// Not promised: that the time taken, or the cache lines touched, are the same for all states.
#![tactic(auto)]

ghost use Rattle.std.specs.Prelude.{◌≡◌};
ghost use Rattle.field.specs.Sbox.{IsSbox};
ghost use Rattle.rounds.specs.State.{state_of, bytes_of, sub_word, sub_bytes, shift_rows, mix_column, mix_columns, add_word, add_round_key};
ghost use Rattle.rounds.specs.Round.{round_of, last_round};

use std::array;

// SUBWORD (5.2), and SUBBYTES of one column.
pub fn sub_word(t: &[u8; 256], a: [u8; 4]) -> [u8; 4]
    requires { IsSbox t.now }
    ensures { result ≡ sub_word a }
{
    a.map(|x| field::sub_byte(t, x))
}

// SUBBYTES (5.1.1).
// Written out: a closure for `map` would have to repeat the contract of `sub_word`, which takes as many lines.
pub fn sub_bytes(t: &[u8; 256], s: [[u8; 4]; 4]) -> [[u8; 4]; 4]
    requires { IsSbox t.now }
    ensures { result ≡ sub_bytes s }
{
    [
        sub_word(t, s[0]),
        sub_word(t, s[1]),
        sub_word(t, s[2]),
        sub_word(t, s[3]),
    ]
}

// SHIFTROWS (5.1.2).
// Written out, as the figure of the standard: nested closures over index sums would need a contract for each column.
pub fn shift_rows(s: [[u8; 4]; 4]) -> [[u8; 4]; 4]
    ensures { result ≡ shift_rows s }
{
    [
        [s[0][0], s[1][1], s[2][2], s[3][3]],
        [s[1][0], s[2][1], s[3][2], s[0][3]],
        [s[2][0], s[3][1], s[0][2], s[1][3]],
        [s[3][0], s[0][1], s[1][2], s[2][3]],
    ]
}

// MIXCOLUMNS (5.1.3) of one column: 02 • a + 03 • b + c + d is 02 • (a + b) + b + (c + d), so that each sum of two
// neighbours serves two bytes, and each byte takes one product.
fn mix_column(a: [u8; 4]) -> [u8; 4]
    ensures { result ≡ mix_column a }
{
    let [a0, a1, a2, a3] = a;
    let p = a0 ^ a1;
    let q = a1 ^ a2;
    let r = a2 ^ a3;
    let s = a3 ^ a0;
    [
        field::xtime(p) ^ a1 ^ r,
        field::xtime(q) ^ a2 ^ s,
        field::xtime(r) ^ a3 ^ p,
        field::xtime(s) ^ a0 ^ q,
    ]
}

// MIXCOLUMNS (5.1.3).
#[tactic(auto, using(crate::proofs::Words::four_parts))]
fn mix_columns(s: [[u8; 4]; 4]) -> [[u8; 4]; 4]
    ensures { result ≡ mix_columns s }
{
    s.map(mix_column)
}

// The sum of two words.
pub fn add_word(a: [u8; 4], b: [u8; 4]) -> [u8; 4]
    ensures { result ≡ add_word a b }
{
    array::from_fn(|r| a[r] ^ b[r])
}

// ADDROUNDKEY (5.1.4).
// Written out: a closure for `from_fn` would have to repeat the contract of `add_word`, which takes as many lines.
pub fn add_round_key(s: [[u8; 4]; 4], k: [[u8; 4]; 4]) -> [[u8; 4]; 4]
    ensures { result ≡ add_round_key s k }
{
    [
        add_word(s[0], k[0]),
        add_word(s[1], k[1]),
        add_word(s[2], k[2]),
        add_word(s[3], k[3]),
    ]
}

// A round of Algorithm 1 (5.1).
#[tactic(auto, unfolding(crate::specs::Round::round_of))]
pub fn round(t: &[u8; 256], s: [[u8; 4]; 4], k: [[u8; 4]; 4]) -> [[u8; 4]; 4]
    requires { IsSbox t.now }
    ensures { result ≡ round_of s k }
{
    add_round_key(mix_columns(shift_rows(sub_bytes(t, s))), k)
}

// The last round, which has no MIXCOLUMNS (5.1).
#[tactic(auto, unfolding(crate::specs::Round::last_round))]
pub fn last_round(t: &[u8; 256], s: [[u8; 4]; 4], k: [[u8; 4]; 4]) -> [[u8; 4]; 4]
    requires { IsSbox t.now }
    ensures { result ≡ last_round s k }
{
    add_round_key(shift_rows(sub_bytes(t, s)), k)
}

// The state of 16 bytes (3.4).
// Written out: nested closures would need a contract for each column, which takes as many lines.
pub fn state_of(b: [u8; 16]) -> [[u8; 4]; 4]
    ensures { result ≡ state_of b }
{
    [
        [b[0], b[1], b[2], b[3]],
        [b[4], b[5], b[6], b[7]],
        [b[8], b[9], b[10], b[11]],
        [b[12], b[13], b[14], b[15]],
    ]
}

// The 16 bytes of a state (3.4).
// Written out: `s[i / 4][i % 4]` in a closure would need a law of sixteen parts, which is longer.
pub fn bytes_of(s: [[u8; 4]; 4]) -> [u8; 16]
    ensures { result ≡ bytes_of s }
{
    [
        s[0][0], s[0][1], s[0][2], s[0][3], s[1][0], s[1][1], s[1][2], s[1][3], s[2][0], s[2][1],
        s[2][2], s[2][3], s[3][0], s[3][1], s[3][2], s[3][3],
    ]
}

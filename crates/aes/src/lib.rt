// AES-256 (FIPS 197): the round keys of a key, and the encryption of one block under them.
//
// The round keys are a record, made by `round_keys` and handed on by value. Inside this crate its array is lent. Whoever
// encrypts copies the S-box out once and lends it (crate `field` says why).
// Not promised: that the time taken, or the cache lines touched, are the same for all keys and blocks.
#![tactic(auto)]

ghost use Rattle.std.specs.Prelude.{◌≡◌, ◌<◌, ◌≤◌, length};
ghost use Rattle.field.specs.Sbox.{IsSbox};
ghost use Rattle.aes.specs.KeyExpansion.{word_at, rot_word, rcon, changed_word, next_word, key_expansion};
ghost use Rattle.aes.specs.Cipher.{round_key, cipher_state, cipher};
ghost use Rattle.aes.specs.Theorems.{AesLaws};

use std::array;

// The round keys of a key (5.2): the 60 words of the key schedule one after the other, four to each of the 15 round keys.
#[derive(Clone, Copy)]
pub struct RoundKeys {
    pub schedule: [u8; 240],
}

// ROTWORD (5.2).
fn rot_word(a: [u8; 4]) -> [u8; 4]
    ensures { result ≡ rot_word a }
{
    [a[1], a[2], a[3], a[0]]
}

const RCON: [u8; 8] = [0x00, 0x01, 0x02, 0x04, 0x08, 0x10, 0x20, 0x40];

// Rcon[j] (table 5).
fn round_constant(j: usize) -> [u8; 4]
    requires { j < 8 }
    ensures { result ≡ rcon j }
{
    [RCON[j], 0, 0, 0]
}

// What is added to w[i - 8], from temp = w[i - 1] (5.2, Algorithm 2).
fn changed_word(t: &[u8; 256], i: usize, temp: [u8; 4]) -> [u8; 4]
    requires sbox { IsSbox t.now }
    requires i_bound { i < 64 }
    ensures { result ≡ changed_word i temp }
{
    let m = i % 8;
    if m == 0 {
        return rounds::add_word(rounds::sub_word(t, rot_word(temp)), round_constant(i / 8));
    }
    if m == 4 {
        return rounds::sub_word(t, temp);
    }
    temp
}

// Word i of a schedule.
fn word_at(w: &[u8; 240], i: usize) -> [u8; 4]
    requires { i < 60 }
    ensures { result ≡ word_at w.now i }
{
    array::from_fn(|r| w[4 * i + r])
}

// w[i], from the words before it (5.2, Algorithm 2).
#[tactic(auto, unfolding(crate::specs::KeyExpansion::next_word))]
fn next_word(t: &[u8; 256], w: &[u8; 240], i: usize) -> [u8; 4]
    requires sbox { IsSbox t.now }
    requires le_i { (8 ≤ i) × (i < 60) }
    ensures { result ≡ next_word w.now i }
{
    rounds::add_word(word_at(w, i - 8), changed_word(t, i, word_at(w, i - 1)))
}

// KEYEXPANSION (5.2).
fn key_expansion(t: &[u8; 256], key: &[u8]) -> [u8; 240]
    requires sbox { IsSbox t.now }
    requires key_len { length key.now ≡ 32 }
    ensures { result ≡ key_expansion key.now }
{
    let mut w = [0u8; 240];
    w[..32].copy_from_slice(key);
    for i in 8..60 {
        let a = next_word(t, &w, i);
        // Four stores: with `copy_from_slice` the key schedule takes 1.6 times as long.
        let j = 4 * i;
        w[j] = a[0];
        w[j + 1] = a[1];
        w[j + 2] = a[2];
        w[j + 3] = a[3];
    }
    w
}

// The round keys of a key.
pub fn round_keys(t: &[u8; 256], key: &[u8]) -> RoundKeys
    requires sbox { IsSbox t.now }
    requires key_len { length key.now ≡ 32 }
    ensures { result.schedule ≡ key_expansion key.now }
{
    RoundKeys {
        schedule: key_expansion(t, key),
    }
}

// Round key n of a schedule.
// Written out: a closure for `from_fn` would have to repeat the contract of `word_at`, which takes as many lines.
fn round_key(w: &[u8; 240], n: usize) -> [[u8; 4]; 4]
    requires { n < 15 }
    ensures { result ≡ round_key w.now n }
{
    let i = 4 * n;
    [
        word_at(w, i),
        word_at(w, i + 1),
        word_at(w, i + 2),
        word_at(w, i + 3),
    ]
}

// CIPHER (5.1), on the state. A turn's result has a name: the check does not cover a call whose array goes into `x` at once.
fn cipher_state(t: &[u8; 256], w: &[u8; 240], s: [[u8; 4]; 4]) -> [[u8; 4]; 4]
    requires { IsSbox t.now }
    ensures { result ≡ cipher_state w.now s }
{
    let mut x = rounds::add_round_key(s, round_key(w, 0));
    for n in 1..14 {
        let y = rounds::round(t, x, round_key(w, n));
        x = y;
    }
    rounds::last_round(t, x, round_key(w, 14))
}

// CIPHER (5.1) of a block under the round keys.
#[tactic(auto, unfolding(crate::specs::Cipher::cipher))]
pub fn encrypt_block(t: &[u8; 256], keys: RoundKeys, block: [u8; 16]) -> [u8; 16]
    requires { IsSbox t.now }
    ensures { result ≡ cipher keys.schedule block }
{
    rounds::bytes_of(cipher_state(t, &keys.schedule, rounds::state_of(block)))
}

// The laws of AES-256: nothing runs, and the check has to prove them.
pub fn aes_laws()
    ensures { AesLaws }
{}

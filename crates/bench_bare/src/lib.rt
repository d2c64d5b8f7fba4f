// Counter mode in the form before the round keys were a record, kept for the benchmark alone: no call of the product uses it.
//
// The key schedule is a bare array of 240 bytes, lent from function to function, and a byte of MIXCOLUMNS takes two products.
// It is proved like the rest, so that the benchmark compares two forms of one definition.
// What it has in common with `aes` and `ctr`, and its loops, stand here as they were, but for the tests of lengths: shared or rewritten, the
// form measured would move.
#![tactic(auto)]

ghost use Rattle.std.specs.Prelude.{◌≡◌, ◌+◌, ◌*◌, ◌/◌, ◌^◌, ◌<◌, ◌≤◌, length};
ghost use Rattle.block.specs.Number.{block_number};
ghost use Rattle.field.specs.Sbox.{IsSbox};
ghost use Rattle.refusals.specs.Numbers.{unless_refused};
ghost use Rattle.rounds.specs.State.{mix_byte, mix_column, mix_columns};
ghost use Rattle.rounds.specs.Round.{round_of};
ghost use Rattle.aes.specs.KeyExpansion.{word_at};
ghost use Rattle.aes.specs.Cipher.{round_key, cipher_state, cipher};
ghost use Rattle.ctr_spec.specs.CounterMode.{output_block, stream, xors, ctr};
ghost use Rattle.ctr.specs.Call.{ctr_refusal};

use block::Block;

// A byte of MIXCOLUMNS (5.1.3), from the four bytes of its column, its own first.
fn mix_byte(a: u8, b: u8, c: u8, d: u8) -> u8
    ensures { result ≡ mix_byte a b c d }
{
    field::xtime(a) ^ (b ^ field::xtime(b)) ^ c ^ d
}

// MIXCOLUMNS (5.1.3) of one column.
fn mix_column(a: [u8; 4]) -> [u8; 4]
    ensures { result ≡ mix_column a }
{
    let a0 = a[0];
    let a1 = a[1];
    let a2 = a[2];
    let a3 = a[3];
    [
        mix_byte(a0, a1, a2, a3),
        mix_byte(a1, a2, a3, a0),
        mix_byte(a2, a3, a0, a1),
        mix_byte(a3, a0, a1, a2),
    ]
}

// MIXCOLUMNS (5.1.3).
fn mix_columns(s: [[u8; 4]; 4]) -> [[u8; 4]; 4]
    ensures { result ≡ mix_columns s }
{
    [
        mix_column(s[0]),
        mix_column(s[1]),
        mix_column(s[2]),
        mix_column(s[3]),
    ]
}

// A round of Algorithm 1 (5.1).
#[tactic(auto, unfolding(rounds::specs::Round::round_of))]
fn round(t: &[u8; 256], s: [[u8; 4]; 4], k: [[u8; 4]; 4]) -> [[u8; 4]; 4]
    requires { IsSbox t.now }
    ensures { result ≡ round_of s k }
{
    rounds::add_round_key(mix_columns(rounds::shift_rows(rounds::sub_bytes(t, s))), k)
}

// Word i of a schedule.
fn word_at(w: &[u8; 240], i: usize) -> [u8; 4]
    requires { i < 60 }
    ensures { result ≡ word_at w.now i }
{
    let j = 4 * i;
    [w[j], w[j + 1], w[j + 2], w[j + 3]]
}

// Round key n of a schedule.
fn round_key(w: &[u8; 240], n: usize) -> [[u8; 4]; 4]
    requires { n < 15 }
    ensures { result ≡ round_key w.now n }
{
    let i = 4 * n;
    [
        word_at(w, i),
        word_at(w, i + 1),
        word_at(w, i + 2),
        word_at(w, i + 3),
    ]
}

// CIPHER (5.1), on the state.
fn cipher_state(t: &[u8; 256], w: &[u8; 240], s: [[u8; 4]; 4]) -> [[u8; 4]; 4]
    requires { IsSbox t.now }
    ensures { result ≡ cipher_state w.now s }
{
    let mut x = rounds::add_round_key(s, round_key(w, 0));
    for n in 1..14 {
        let y = round(t, x, round_key(w, n));
        x = y;
    }
    rounds::last_round(t, x, round_key(w, 14))
}

// CIPHER (5.1) of a block under a schedule.
#[tactic(auto, unfolding(aes::specs::Cipher::cipher))]
fn encrypt_block(t: &[u8; 256], w: &[u8; 240], block: [u8; 16]) -> [u8; 16]
    requires { IsSbox t.now }
    ensures { result ≡ cipher w.now block }
{
    rounds::bytes_of(cipher_state(t, w, rounds::state_of(block)))
}

// The output block of the counter block that is n after iv.
fn output_block(t: &[u8; 256], w: &[u8; 240], iv: Block, n: usize) -> [u8; 16]
    requires { IsSbox t.now }
    ensures { result ≡ output_block w.now (block_number iv + n) }
{
    let counter = block::block_bytes(block::add(iv, n as u64));
    encrypt_block(t, w, counter)
}

// The end of the bytes of a text of len bytes that stand in one block with byte i, the text beginning at byte n.
fn block_end(n: usize, i: usize, len: usize) -> usize
    requires { (i < len) × (n + len < 2 ^ 63) }
    ensures { (i < result) × (result ≤ len) × (n + result ≤ (n + i) / 16 * 16 + 16) }
{
    let end = i + (16 - (n + i) % 16);
    if end > len {
        return len;
    }
    end
}

// The sum of a text and the stream from byte n on, under a schedule.
fn apply_keystream(t: &[u8; 256], w: &[u8; 240], iv: Block, n: usize, text: &[u8], out: &mut [u8])
    requires sbox { IsSbox t.now }
    requires out_len { length out.old ≡ length text.now }
    requires text_bound { n + length text.now < 2 ^ 63 }
    ensures { out.new ≡ xors text.now (stream w.now (block_number iv) n (length text.now)) }
{
    let mut i = 0;
    while i < text.len() {
        let s = output_block(t, w, iv, (n + i) / 16);
        let end = block_end(n, i, text.len());
        while i < end {
            let r = (n + i) % 16;
            out[i] = text[i] ^ s[r];
            i += 1;
        }
    }
}

// Counter mode: the arguments and answers of hiwalgam_counter_mode.
#[unsafe(no_mangle)]
pub extern "C" fn hiwalgam_bench_bare_counter_mode(
    key: &[u8],
    iv: &[u8],
    text: &[u8],
    out: &mut [u8],
) -> u8
    ensures answer { result ≡ ctr_refusal (length key.now) (length iv.now) (length text.now)
        (length out.old) }
    ensures output { out.new ≡ unless_refused result (ctr key.now iv.now text.now) out.old }
{
    if let Err(refused) = ctr::check_lengths(key.len(), iv.len(), text.len(), out.len()) {
        return u8::from(refused);
    }
    let t = field::sbox_table();
    let keys = aes::round_keys(&t, key);
    let w = keys.schedule;
    let c = block::load_block(iv, 0);
    apply_keystream(&t, &w, c, 0, text, out);
    0
}

// The key expansion of AES-256 (FIPS 197, section 5.2) without look-ups: no index and no branch depends on a byte of the key.
//
// A word is a number of 32 bits, its first byte the most significant. The S-box is the circuit on bit planes, one word at a time.
#![tactic(auto)]

ghost use Rattle.std.specs.Prelude.{◌≡◌, ◌<◌, ◌≤◌, length};
ghost use Rattle.rounds.specs.State.{sub_word};
ghost use Rattle.aes.specs.KeyExpansion.{word_at, rot_word, changed_word};
ghost use Rattle.lanes.specs.Lanes.{row_at};
ghost use Rattle.expansion.specs.Words.{word_bytes, Word, Picked, shifted, low_bytes, Expanded};

// Word i of a key.
fn load_word(key: &[u8], i: usize) -> u32
    requires key_len { length key.now ≡ 32 }
    requires i_bound { i < 8 }
    ensures { Word result (word_at key.now i) }
{
    let j = 4 * i;
    u32::from_be_bytes([key[j], key[j + 1], key[j + 2], key[j + 3]])
}

// ROTWORD.
fn rot_word(p: u32) -> u32
    ensures { Word result (rot_word (word_bytes p)) }
{
    p.rotate_left(8)
}

// A word into the first row of the first lane, shifted by 0 to 7 places: bit k of each byte is the byte's lowest bit in word k of the
// row. Stored word by word, so that `lanes` keeps its functions in line.
fn put_bits(s: &mut [u64; 512], p: u32)
    ensures { row_at s.new 0 ≡ shifted p }
{
    let p = u64::from(p);
    s[0] = p;
    s[16] = p >> 1;
    s[32] = p >> 2;
    s[48] = p >> 3;
    s[64] = p >> 4;
    s[80] = p >> 5;
    s[96] = p >> 6;
    s[112] = p >> 7;
}

// The lowest bits of the four lowest bytes of a word.
fn lowest(x: u64) -> u32
    ensures { Picked x result }
{
    (x & 0x0101_0101) as u32
}

// The word whose bits stand in the first row of the first lane.
fn get_bits(s: &[u64; 512]) -> u32
    ensures { Word result (low_bytes (row_at s.now 0)) }
{
    let low = lowest(s[0]) + lowest(s[16]) * 2 + lowest(s[32]) * 4 + lowest(s[48]) * 8;
    low + lowest(s[64]) * 16 + lowest(s[80]) * 32 + lowest(s[96]) * 64 + lowest(s[112]) * 128
}

// SUBWORD: the S-box on the bits of the four bytes.
fn sub_word(s: &mut [u64; 512], p: u32) -> u32
    ensures { Word result (sub_word (word_bytes p)) }
{
    put_bits(s, p);
    lanes::sub_rows(s, 1, 1);
    get_bits(s)
}

// What is added to w[i - 8], from p = w[i - 1] (Algorithm 2).
fn changed_word(s: &mut [u64; 512], i: usize, p: u32) -> u32
    requires { (8 ≤ i) × (i < 60) }
    ensures { Word result (changed_word i (word_bytes p)) }
{
    let m = i % 8;
    if m == 0 {
        return sub_word(s, rot_word(p)) ^ (1u32 << (23 + i / 8));
    }
    if m == 4 {
        return sub_word(s, p);
    }
    p
}

// KEYEXPANSION.
pub fn expand(s: &mut [u64; 512], key: &[u8]) -> [u32; 60]
    requires { length key.now ≡ 32 }
    ensures { Expanded key.now result }
{
    let mut w = [0u32; 60];
    for i in 0usize..8 {
        w[i] = load_word(key, i);
    }
    for i in 8..60 {
        let a = changed_word(s, i, w[i - 1]);
        w[i] = w[i - 8] ^ a;
    }
    w
}

// Counter mode under AES-256 (SP 800-38A, section 6.5).
//
// `counter_mode` is the public call: any arguments, refused by 3 or 13 or served. `ctr_into` and `ctr_from_into` are for
// callers that have no refusal left to make, and `apply_keystream` for those that hold round keys. Block n has the counter
// of the IV plus n, computed anew, so that a text may begin at any byte.
//
// A text under a key goes one of two ways, and its length alone decides: a short one block by block, with the table of the
// S-box, and a longer one up to 256 blocks at a time, on bit planes. Over round keys it goes by the table at every length.
#![tactic(auto)]

ghost use Rattle.std.specs.Prelude.{◌≡◌, ◌+◌, ◌*◌, ◌/◌, ◌^◌, ◌<◌, ◌≤◌, length};
ghost use Rattle.block.specs.Number.{block_number};
ghost use Rattle.field.specs.Sbox.{IsSbox};
ghost use Rattle.refusals.specs.Numbers.{answer_number, unless_refused};
ghost use Rattle.ctr_spec.specs.CounterMode.{output_block, ctr_from, ctr, ctr_over};
ghost use Rattle.ctr.specs.Call.{ctr_refusal};
ghost use Rattle.ctr.specs.Chunks.{add_stream};

use aes::RoundKeys;
use block::Block;
use keystream::BUFFER_BYTES;
use refusals::Refusal;

// Texts of so many bytes and more are enciphered on bit planes.
const PLANES_FROM: usize = 192;

// The output block of the counter block that is n after iv.
pub fn output_block(t: &[u8; 256], keys: RoundKeys, iv: Block, n: usize) -> [u8; 16]
    requires { IsSbox t.now }
    ensures { result ≡ output_block keys.schedule (block_number iv + n) }
{
    let counter = block::block_bytes(block::add(iv, n as u64));
    aes::encrypt_block(t, keys, counter)
}

// The end of the bytes of a text of len bytes that stand in one block with byte i, the text beginning at byte n.
fn block_end(n: usize, i: usize, len: usize) -> usize
    requires { (i < len) × (n + len < 2 ^ 63) }
    ensures { (i < result) × (result ≤ len) × (n + result ≤ (n + i) / 16 * 16 + 16) }
{
    (i + (16 - (n + i) % 16)).min(len)
}

// Counter mode over round keys, from the counter block iv, of a text that begins at byte n of a longer one.
pub fn apply_keystream(
    t: &[u8; 256],
    keys: RoundKeys,
    iv: Block,
    n: usize,
    text: &[u8],
    out: &mut [u8],
)
    requires sbox { IsSbox t.now }
    requires out_len { length out.old ≡ length text.now }
    requires text_bound { n + length text.now < 2 ^ 63 }
    ensures { out.new ≡ ctr_over keys (block_number iv) n text.now }
{
    let mut i = 0;
    // A while: the first and the last part may be shorter than a block.
    while i < text.len() {
        let s = output_block(t, keys, iv, (n + i) / 16);
        let end = block_end(n, i, text.len());
        for j in i..end {
            let r = (n + j) % 16;
            out[j] = text[j] ^ s[r];
        }
        i = end;
    }
}

// Counter mode of a text that begins at byte n of a longer one, by the table of the S-box.
fn table_from_into(key: &[u8], iv: &[u8], n: usize, text: &[u8], out: &mut [u8])
    requires key_len { length key.now ≡ 32 }
    requires iv_len { length iv.now ≡ 16 }
    requires out_len { length out.old ≡ length text.now }
    requires text_bound { n + length text.now < 2 ^ 63 }
    ensures { out.new ≡ ctr_from key.now iv.now n text.now }
{
    let t = field::sbox_table();
    let keys = aes::round_keys(&t, key);
    let c = block::load_block(iv, 0);
    apply_keystream(&t, keys, c, n, text, out);
}

// The sums of the k bytes of text from place at on and of the bytes of buf from place off on, into out.
fn add_stream(
    buf: &[u8; BUFFER_BYTES],
    off: usize,
    at: usize,
    k: usize,
    text: &[u8],
    out: &mut [u8],
)
    requires { (off + k ≤ 4096) × (at + k ≤ length text.now) × (length out.old ≡ length text.now) }
    ensures { out.new ≡ add_stream buf.now off at k text.now out.old }
{
    for i in 0..k {
        out[at + i] = text[at + i] ^ buf[off + i];
    }
}

// Counter mode of a text that begins at byte n of a longer one, on bit planes, up to 4,096 bytes of the stream at a time.
fn planes_from_into(key: &[u8], iv: &[u8], n: usize, text: &[u8], out: &mut [u8])
    requires key_len { length key.now ≡ 32 }
    requires iv_len { length iv.now ≡ 16 }
    requires out_len { length out.old ≡ length text.now }
    requires text_bound { n + length text.now < 2 ^ 63 }
    ensures { out.new ≡ ctr_from key.now iv.now n text.now }
{
    let mut s = [0u64; 512];
    let keys = schedule::key_planes(&mut s, key);
    let c = block::load_block(iv, 0);
    let mut buf = [0u8; BUFFER_BYTES];
    let mut at = 0;
    // A while: the first and the last part may be shorter than the others.
    while at < text.len() {
        let left = text.len() - at;
        let off = (n + at) % 16;
        let lanes = (off + left).div_ceil(256).min(16);
        keystream::output_blocks(&mut s, lanes, &keys, c, (n + at) / 16, &mut buf);
        let k = left.min(256 * lanes - off);
        add_stream(&buf, off, at, k, text, out);
        at += k;
    }
}

// Counter mode of a text that begins at byte n of a longer one.
pub fn ctr_from_into(key: &[u8], iv: &[u8], n: usize, text: &[u8], out: &mut [u8])
    requires key_len { length key.now ≡ 32 }
    requires iv_len { length iv.now ≡ 16 }
    requires out_len { length out.old ≡ length text.now }
    requires text_bound { n + length text.now < 2 ^ 63 }
    ensures { out.new ≡ ctr_from key.now iv.now n text.now }
{
    if text.len() < PLANES_FROM {
        table_from_into(key, iv, n, text, out);
    } else {
        planes_from_into(key, iv, n, text, out);
    }
}

// Counter mode of a text.
#[tactic(auto, unfolding(ctr_spec::specs::CounterMode::ctr))]
pub fn ctr_into(key: &[u8], iv: &[u8], text: &[u8], out: &mut [u8])
    requires key_len { length key.now ≡ 32 }
    requires iv_len { length iv.now ≡ 16 }
    requires out_len { length out.old ≡ length text.now }
    requires text_len_bound { length text.now < 2 ^ 63 }
    ensures { out.new ≡ ctr key.now iv.now text.now }
{
    ctr_from_into(key, iv, 0, text, out);
}

// The refusal of a call for the lengths of key, IV, text and output: 3 or 13.
#[tactic(auto, using(std::proofs::lemmas::Bool::Decides::nat_tests), unfolding(crate::specs::Call::ctr_refusal, refusals::specs::Numbers::refuse))]
pub fn check_lengths(key: usize, iv: usize, text: usize, out: usize) -> Result<(), Refusal>
    ensures { answer_number result ≡ ctr_refusal key iv text out }
{
    if key != 32 {
        return Err(Refusal::KeyLength);
    }
    if iv != 16 {
        return Err(Refusal::WrongLength);
    }
    if text > 4096 {
        return Err(Refusal::WrongLength);
    }
    if out != text {
        return Err(Refusal::WrongLength);
    }
    Ok(())
}

// Counter mode of a text of 0 to 4,096 bytes, or refusal 3 or 13, by which the output stays as it was.
pub fn counter_mode(key: &[u8], iv: &[u8], text: &[u8], out: &mut [u8]) -> Result<(), Refusal>
    ensures answer { answer_number result ≡ ctr_refusal (length key.now) (length iv.now) (length text.now)
        (length out.old) }
    ensures output { out.new ≡ unless_refused (answer_number result) (ctr key.now iv.now text.now)
        out.old }
{
    check_lengths(key.len(), iv.len(), text.len(), out.len())?;
    ctr_into(key, iv, text, out);
    Ok(())
}

// GCM under AES-256 (SP 800-38D), with an IV of 12 bytes and a tag of 16.
//
// `seal` and `open` are the public calls: any arguments, refused by 3, 13 or 15 or served. `seal_into` and `open_into`
// are for callers that have no refusal left to make. Opening tests the whole tag before it writes a byte of its output.
// Not promised: that two texts sealed with one key and IV stay secret, and what a cache or a clock can tell.
#![tactic(auto)]

ghost use Rattle.std.specs.Prelude.{◌≡◌, ◌+◌, ◌*◌, ◌^◌, ◌<◌, ◌≤◌, length};
ghost use Rattle.block.specs.Bytes.{number};
ghost use Rattle.block.specs.Number.{block_number};
ghost use Rattle.field.specs.Sbox.{IsSbox};
ghost use Rattle.ghash.specs.Hash.{ghash};
ghost use Rattle.refusals.specs.Numbers.{answer_number, unless_refused};
ghost use Rattle.gcm_spec.specs.Gcm.{subkey, hash_input, tag_under, gcm_tag, gcm_text, same, gcm_open};
ghost use Rattle.gcm.specs.Call.{gcm_refusal, seal_refusal, open_refusal, opened_over};

use aes::RoundKeys;
use block::Block;
use refusals::Refusal;

// The hash subkey H (7.1, step 1).
fn hash_subkey(t: &[u8; 256], keys: RoundKeys) -> Block
    requires { IsSbox t.now }
    ensures { block_number result ≡ subkey keys.schedule }
{
    let b = ctr::output_block(t, keys, Block { hi: 0, lo: 0 }, 0);
    block::load_block(&b, 0)
}

// The counter block of an IV, then the number k in 32 bits: J0 where k is 1 (7.1, step 2).
fn counter_block(iv: &[u8], k: u64) -> Block
    requires iv_len { length iv.now ≡ 12 }
    requires k_bound { k < 2 ^ 32 }
    ensures { block_number result ≡ number iv.now * 2 ^ 32 + k }
{
    let b = block::load_block(iv, 0);
    block::add(b, k)
}

// GHASH of associated data and ciphertext, padded, then their lengths in bits (7.1, step 5).
fn hash(h: Block, aad: &[u8], c: &[u8]) -> Block
    requires aad_len_bound { length aad.now ≤ 4096 }
    requires c_len_bound { length c.now ≤ 4096 }
    ensures { block_number result ≡ ghash (block_number h) (hash_input aad.now c.now) }
{
    let a = ghash::absorb(h, Block { hi: 0, lo: 0 }, aad);
    let y = ghash::absorb(h, a, c);
    let aad_bits = aad.len() * 8;
    let c_bits = c.len() * 8;
    ghash::absorb_block(
        h,
        y,
        Block {
            hi: aad_bits as u64,
            lo: c_bits as u64,
        },
    )
}

// The tag of associated data and ciphertext (7.1, steps 5 and 6).
fn tag_of(t: &[u8; 256], keys: RoundKeys, iv: &[u8], aad: &[u8], c: &[u8]) -> [u8; 16]
    requires sbox { IsSbox t.now }
    requires iv_len { length iv.now ≡ 12 }
    requires aad_len_bound { length aad.now ≤ 4096 }
    requires c_len_bound { length c.now ≤ 4096 }
    ensures { result ≡ tag_under keys.schedule iv.now aad.now c.now }
{
    let h = hash_subkey(t, keys);
    let s = block::block_bytes(hash(h, aad, c));
    let j0 = counter_block(iv, 1);
    let mut tag = [0u8; 16];
    ctr::apply_keystream(t, keys, j0, 0, &s, &mut tag);
    tag
}

// Whether two tags are the same; all 16 bytes are looked at.
fn same_tag(a: &[u8], b: &[u8]) -> bool
    requires { (length a.now ≡ 16) × (length b.now ≡ 16) }
    ensures { result ≡ same a.now b.now }
{
    let mut d: u8 = 0;
    for i in 0..16 {
        d |= a[i] ^ b[i];
    }
    d == 0
}

// Sealing (7.1): the ciphertext into out, and its tag.
pub fn seal_into(key: &[u8], iv: &[u8], aad: &[u8], text: &[u8], out: &mut [u8], tag: &mut [u8])
    requires key_len { length key.now ≡ 32 }
    requires iv_len { length iv.now ≡ 12 }
    requires aad_len_bound { length aad.now ≤ 4096 }
    requires text_len_bound { length text.now ≤ 4096 }
    requires out_len { length out.old ≡ length text.now }
    requires tag_len { length tag.old ≡ 16 }
    ensures output { out.new ≡ gcm_text key.now iv.now text.now }
    ensures tag { tag.new ≡ gcm_tag key.now iv.now aad.now
        (gcm_text key.now iv.now text.now) }
{
    let t = field::sbox_table();
    let keys = aes::round_keys(&t, key);
    let c = counter_block(iv, 2);
    ctr::apply_keystream(&t, keys, c, 0, text, out);
    let m = tag_of(&t, keys, iv, aad, out);
    tag.copy_from_slice(&m);
}

// Opening (7.2): whether the tag is right, and the text into out where it is.
pub fn open_into(key: &[u8], iv: &[u8], aad: &[u8], text: &[u8], tag: &[u8], out: &mut [u8]) -> bool
    requires key_len { length key.now ≡ 32 }
    requires iv_len { length iv.now ≡ 12 }
    requires aad_len_bound { length aad.now ≤ 4096 }
    requires text_len_bound { length text.now ≤ 4096 }
    requires tag_len { length tag.now ≡ 16 }
    requires out_len { length out.old ≡ length text.now }
    ensures right { result ≡ same (gcm_tag key.now iv.now aad.now text.now) tag.now }
    ensures output { out.new ≡ opened_over (gcm_open key.now iv.now aad.now text.now
        tag.now) out.old }
{
    let t = field::sbox_table();
    let keys = aes::round_keys(&t, key);
    let m = tag_of(&t, keys, iv, aad, text);
    if same_tag(&m, tag) {
        let c = counter_block(iv, 2);
        ctr::apply_keystream(&t, keys, c, 0, text, out);
        return true;
    }
    false
}

// The refusal of either call for the lengths of what it was handed: 3 or 13.
#[tactic(auto, using(std::proofs::lemmas::Bool::Decides::nat_tests), unfolding(crate::specs::Call::gcm_refusal, refusals::specs::Numbers::refuse))]
fn lengths_refusal(
    key: usize,
    iv: usize,
    aad: usize,
    text: usize,
    tag: usize,
    out: usize,
) -> Result<(), Refusal>
    ensures { answer_number result ≡ gcm_refusal key iv aad text tag out 0 }
{
    if key != 32 {
        return Err(Refusal::KeyLength);
    }
    if iv != 12 {
        return Err(Refusal::WrongLength);
    }
    if aad > 16 {
        return Err(Refusal::WrongLength);
    }
    if text > 256 {
        return Err(Refusal::WrongLength);
    }
    if tag != 16 {
        return Err(Refusal::WrongLength);
    }
    if out != text {
        return Err(Refusal::WrongLength);
    }
    Ok(())
}

// A text of 0 to 256 bytes with 0 to 16 of associated data sealed, or refusal 3 or 13, by which the buffers stay.
pub fn seal(
    key: &[u8],
    iv: &[u8],
    aad: &[u8],
    text: &[u8],
    out: &mut [u8],
    tag: &mut [u8],
) -> Result<(), Refusal>
    ensures answer { answer_number result ≡ seal_refusal key.now iv.now aad.now text.now
        tag.old out.old }
    ensures output { out.new ≡ unless_refused (answer_number result) (gcm_text key.now iv.now text.now)
        out.old }
    ensures tag { tag.new ≡ unless_refused (answer_number result)
        (gcm_tag key.now iv.now aad.now (gcm_text key.now iv.now text.now))
        tag.old }
{
    lengths_refusal(
        key.len(),
        iv.len(),
        aad.len(),
        text.len(),
        tag.len(),
        out.len(),
    )?;
    seal_into(key, iv, aad, text, out, tag);
    Ok(())
}

// A ciphertext of 0 to 256 bytes opened, or refusal 3, 13 or 15, by which the output stays as it was.
pub fn open(
    key: &[u8],
    iv: &[u8],
    aad: &[u8],
    text: &[u8],
    tag: &[u8],
    out: &mut [u8],
) -> Result<(), Refusal>
    ensures answer { answer_number result ≡ open_refusal key.now iv.now aad.now text.now
        tag.now out.old }
    ensures output { out.new ≡ unless_refused (answer_number result) (gcm_text key.now iv.now text.now)
        out.old }
{
    lengths_refusal(
        key.len(),
        iv.len(),
        aad.len(),
        text.len(),
        tag.len(),
        out.len(),
    )?;
    if open_into(key, iv, aad, text, tag, out) {
        return Ok(());
    }
    Err(Refusal::TagDiffers)
}

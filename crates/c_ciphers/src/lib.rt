// The C functions of the ciphers, for libhiwalgam.a (include/hiwalgam.h).
//
// A `&[u8]` is two arguments in C, `const uint8_t *` and then its length as `size_t`, and a `&mut [u8]` is `uint8_t *` and
// then its length. Every function takes any lengths and answers the number of document 01: 0 served, else the refusal.
#![tactic(auto)]

ghost use Rattle.std.specs.Prelude.{◌≡◌, length};
ghost use Rattle.refusals.specs.Numbers.{answer_number, unless_refused};
ghost use Rattle.ctr_spec.specs.CounterMode.{ctr, ctr_from};
ghost use Rattle.ctr.specs.Call.{ctr_refusal};
ghost use Rattle.gcm_spec.specs.Gcm.{gcm_text, gcm_tag};
ghost use Rattle.gcm.specs.Call.{seal_refusal, open_refusal};
ghost use Rattle.c_ciphers.specs.From.{from_refusal};

use refusals::Refusal;

// Counter mode: key 32 bytes, IV 16, text 0 to 4,096, output as long as the text. Refusals 3, 13.
#[unsafe(no_mangle)]
pub extern "C" fn hiwalgam_counter_mode(key: &[u8], iv: &[u8], text: &[u8], out: &mut [u8]) -> u8
    ensures answer { result ≡ ctr_refusal (length key.now) (length iv.now) (length text.now)
        (length out.old) }
    ensures output { out.new ≡ unless_refused result (ctr key.now iv.now text.now) out.old }
{
    refusals::answer_number(ctr::counter_mode(key, iv, text, out))
}

// Counter mode of a text that begins at byte `position` of a longer one, or refusal 3 or 13, by which the output stays as it was.
fn keystream_at(
    key: &[u8],
    iv: &[u8],
    position: usize,
    text: &[u8],
    out: &mut [u8],
) -> Result<(), Refusal>
    ensures answer { answer_number result ≡ from_refusal (length key.now) (length iv.now) (length text.now)
        (length out.old) position }
    ensures output { out.new ≡ unless_refused (answer_number result) (ctr_from key.now iv.now position text.now)
        out.old }
{
    ctr::check_lengths(key.len(), iv.len(), text.len(), out.len())?;
    if position > 1_099_511_627_776 {
        return Err(Refusal::WrongLength);
    }
    ctr::ctr_from_into(key, iv, position, text, out);
    Ok(())
}

// Counter mode of a text that begins at byte `position` of a longer one: lengths as above, position at most 2^40.
// Refusals 3, 13.
#[unsafe(no_mangle)]
pub extern "C" fn hiwalgam_keystream_at(
    key: &[u8],
    iv: &[u8],
    position: usize,
    text: &[u8],
    out: &mut [u8],
) -> u8
    ensures answer { result ≡ from_refusal (length key.now) (length iv.now) (length text.now)
        (length out.old) position }
    ensures output { out.new ≡ unless_refused result (ctr_from key.now iv.now position text.now)
        out.old }
{
    refusals::answer_number(keystream_at(key, iv, position, text, out))
}

// GCM sealing: key 32 bytes, IV 12, associated data 0 to 16, text 0 to 256, output as long as the text, tag 16.
// Refusals 3, 13.
#[unsafe(no_mangle)]
pub extern "C" fn hiwalgam_gcm_seal(
    key: &[u8],
    iv: &[u8],
    aad: &[u8],
    text: &[u8],
    out: &mut [u8],
    tag: &mut [u8],
) -> u8
    ensures answer { result ≡ seal_refusal key.now iv.now aad.now text.now tag.old
        out.old }
    ensures output { out.new ≡ unless_refused result (gcm_text key.now iv.now text.now)
        out.old }
    ensures tag { tag.new ≡ unless_refused result (gcm_tag key.now iv.now aad.now
        (gcm_text key.now iv.now text.now)) tag.old }
{
    refusals::answer_number(gcm::seal(key, iv, aad, text, out, tag))
}

// GCM opening: lengths as for sealing, the tag read. Refusals 3, 13, and 15 where the tag differs.
#[unsafe(no_mangle)]
pub extern "C" fn hiwalgam_gcm_open(
    key: &[u8],
    iv: &[u8],
    aad: &[u8],
    text: &[u8],
    tag: &[u8],
    out: &mut [u8],
) -> u8
    ensures answer { result ≡ open_refusal key.now iv.now aad.now text.now tag.now
        out.old }
    ensures output { out.new ≡ unless_refused result (gcm_text key.now iv.now text.now)
        out.old }
{
    refusals::answer_number(gcm::open(key, iv, aad, text, tag, out))
}

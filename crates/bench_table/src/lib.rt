// Counter mode by the table at every length, for the benchmark alone: no call of the product uses it.
//
// The product's counter mode takes the table for short texts. Here the same functions serve all of them, so that the benchmark can
// compare both forms of one definition at one length.
#![tactic(auto)]

ghost use Rattle.std.specs.Prelude.{◌≡◌, length};
ghost use Rattle.refusals.specs.Numbers.{unless_refused};
ghost use Rattle.ctr_spec.specs.CounterMode.{ctr};
ghost use Rattle.ctr.specs.Call.{ctr_refusal};

// Counter mode: the arguments and answers of hiwalgam_counter_mode.
#[unsafe(no_mangle)]
pub extern "C" fn hiwalgam_bench_table_counter_mode(
    key: &[u8],
    iv: &[u8],
    text: &[u8],
    out: &mut [u8],
) -> u8
    ensures answer { result ≡ ctr_refusal (length key.now) (length iv.now) (length text.now)
        (length out.old) }
    ensures output { out.new ≡ unless_refused result (ctr key.now iv.now text.now) out.old }
{
    if let Err(refused) = ctr::check_lengths(key.len(), iv.len(), text.len(), out.len()) {
        return u8::from(refused);
    }
    let t = field::sbox_table();
    let keys = aes::round_keys(&t, key);
    let c = block::load_block(iv, 0);
    ctr::apply_keystream(&t, keys, c, 0, text, out);
    0
}

// Counter mode over a part of a device: a text, or zeros, enciphered to a place.
#![tactic(auto)]

ghost use Rattle.std.specs.Prelude.{◌≡◌, ◌+◌, ◌≤◌, ◌<◌, ◌^◌, length, replicate};
ghost use Rattle.ctr_spec.specs.CounterMode.{ctr};
ghost use Rattle.model.specs.Parts.{overlay};

// A text in counter mode over what stood from a place on: the part of the device is lent to the counter-mode writer.
pub fn store_ctr(device: &mut [u8], at: usize, key: &[u8], iv: &[u8], text: &[u8])
    requires key_len { length key.now ≡ 32 }
    requires iv_len { length iv.now ≡ 16 }
    requires text_len_bound { length text.now < 2 ^ 63 }
    requires text_in_bounds { at + length text.now ≤ length device.old }
    ensures { device.new ≡ overlay device.old at (ctr key.now iv.now text.now) }
{
    let end = at + text.len();
    ctr::ctr_into(key, iv, text, &mut device[at..end]);
}

// b zeros in counter mode over what stood from a place on.
pub fn store_zeros(device: &mut [u8], at: usize, key: &[u8], iv: &[u8], b: usize)
    requires key_len { length key.now ≡ 32 }
    requires iv_len { length iv.now ≡ 16 }
    requires b_bound { b ≤ 4096 }
    requires b_in_bounds { at + b ≤ length device.old }
    ensures { device.new ≡ overlay device.old at (ctr key.now iv.now (replicate b 0)) }
{
    let zeros = [0u8; 4096];
    store_ctr(device, at, key, iv, &zeros[..b]);
}

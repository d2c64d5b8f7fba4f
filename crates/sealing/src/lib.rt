// What GCM seals on a device: a text stored as document 01 lays it out (IV, ciphertext, tag), and the lowest key cell that opens.
//
// Whose key, whose IV and which place these are is the caller's to say. Cells above the one that opens are never read.
#![tactic(auto)]

ghost use Rattle.std.specs.Prelude.{◌≡◌, ◌+◌, ◌≤◌, ◌<◌, length};
ghost use Rattle.gcm.specs.Call.{opened_over};
ghost use Rattle.model.specs.Parts.{overlay};
ghost use Rattle.model.specs.Geometry.{cell_of};
ghost use Rattle.model.specs.Opening.{open_cell, first_cell};
ghost use Rattle.model.specs.Format.{sealed};
ghost use Rattle.sealing.specs.Cells.{is_text, CellFound};

// ---- sealing

// A text sealed under a key with one byte as associated data, over what stood from a place on: IV, ciphertext, tag.
pub fn store_sealed(device: &mut [u8], at: usize, key: &[u8], iv: &[u8], byte: u8, text: &[u8])
    requires { (length key.now ≡ 32) × (length iv.now ≡ 12) × (length text.now ≤ 4096) ×
        (at + (length text.now + 28) ≤ length device.old) }
    ensures { device.new ≡ overlay device.old at (sealed key.now iv.now byte text.now) }
{
    let aad = [byte];
    let mut tag = [0u8; 16];
    let from = at + 12;
    let end = from + text.len();
    places::store(device, at, iv);
    gcm::seal_into(key, iv, &aad, text, &mut device[from..end], &mut tag);
    places::store(device, end, &tag);
}

// ---- cells

// Tries key cell i; its VMK goes into vmk where it opens.
fn open_cell(device: &[u8], key: &[u8], i: usize, vmk: &mut [u8]) -> bool
    requires { (916 ≤ length device.now) × (length key.now ≡ 32) × (i < 15) × (length vmk.old ≡ 32) }
    ensures opens { result ≡ is_text (open_cell key.now i (cell_of device.now i)) }
    ensures vmk { vmk.new ≡ opened_over (open_cell key.now i (cell_of device.now i)) vmk.old }
{
    let aad = [i as u8];
    let iv = 16 + 60 * i;
    let text = iv + 12;
    let tag = text + 32;
    let end = tag + 16;
    gcm::open_into(
        key,
        &device[iv..text],
        &aad,
        &device[text..tag],
        &device[tag..end],
        vmk,
    )
}

// The lowest of the first n cells that opens, with its VMK in vmk.
pub fn first_cell(device: &[u8], key: &[u8], n: usize, vmk: &mut [u8]) -> Option<usize>
    requires { (916 ≤ length device.now) × (length key.now ≡ 32) × (n ≤ 15) × (length vmk.old ≡ 32) }
    ensures { CellFound (first_cell key.now (cell_of device.now) n 0) result vmk.new }
{
    for i in 0..n {
        if open_cell(device, key, i, vmk) {
            return Some(i);
        }
    }
    None
}

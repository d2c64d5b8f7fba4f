// The chain of headers from volume k down to 0. The VMK of a key cell opens the first; each holds its volume's data key, the VMK that
// opens the next, and the volume's count of logical slices (document 02, P4). The rest of a header's first block is never read.
#![tactic(auto)]

ghost use Rattle.std.specs.Prelude.{◌≡◌, ◌≤◌, ◌<◌, length, []};
ghost use Rattle.refusals.specs.Numbers.{answer_number};
ghost use Rattle.model.specs.Geometry.{Allowed, device_length, header_of};
ghost use Rattle.model.specs.Session.{no_keys, no_counts};
ghost use Rattle.model.specs.Opening.{open_header, chain};
ghost use Rattle.chaining.specs.Steps.{HeaderOpened, ChainOpened};

use model::Geometry;
use refusals::Refusal;

// Header i, read from the part of the device that starts at its own block: its 72 bytes into text, or 7; then 8.
fn open_header(
    header: &[u8],
    g: Geometry,
    i: usize,
    vmk: &[u8],
    text: &mut [u8],
) -> Result<(), Refusal>
    requires { (100 ≤ length header.now) × (i < 15) × (length vmk.now ≡ 32) × (length text.old ≡ 72) }
    ensures { HeaderOpened g (open_header vmk.now i header.now) (answer_number result) text.new }
{
    let aad = [(16 + i) as u8];
    if gcm::open_into(
        vmk,
        &header[0..12],
        &aad,
        &header[12..84],
        &header[84..100],
        text,
    ) {
        if places::is_bad_count(g.p, places::number_at(text, 64)) {
            return Err(Refusal::HeaderGeometry);
        }
        if places::number_at(text, 68) != g.s {
            return Err(Refusal::HeaderGeometry);
        }
        return Ok(());
    }
    Err(Refusal::HeaderTag)
}

// The headers k down to 0: the data keys into keys and the counts into counts, or 7 or 8. vmk holds the VMK of volume k at first.
pub fn open_chain(
    device: &[u8],
    g: Geometry,
    k: usize,
    vmk: &mut [u8],
    keys: &mut [u8],
    counts: &mut [usize],
) -> Result<(), Refusal>
    requires { Allowed g × (length device.now ≡ device_length g) × (k ≤ 14) × (length vmk.old ≡ 32) × (keys.old ≡ no_keys)
        × (counts.old ≡ no_counts) }
    ensures { ChainOpened (chain g (header_of g device.now) k vmk.old [] []) k (answer_number result) keys.new
        counts.new }
{
    let mut text = [0u8; 72];
    for i in (0..k + 1).rev() {
        let start = places::header_start(g, i);
        open_header(&device[start..], g, i, vmk, &mut text)?;
        places::store(keys, 32 * i, &text[0..32]);
        counts[i] = places::number_at(&text, 64);
        vmk.copy_from_slice(&text[32..64]);
    }
    Ok(())
}

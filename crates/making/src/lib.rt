// What a formatting stores, once it is not refused: the device is filled from the bytes drawn, then gets its key cells, headers and
// empty maps.
//
// All tape bytes of a formatting are drawn at once; each key and each IV is a part of them by its place. What the device held before is
// never read.
#![tactic(auto)]

ghost use Rattle.std.specs.Prelude.{◌≡◌, ◌+◌, ◌*◌, ◌≤◌, ◌<◌, length};
ghost use Rattle.refusals.specs.Numbers.{answer_number, unless_refused};
ghost use Rattle.model.specs.Parts.{part, overlay, patched};
ghost use Rattle.model.specs.Geometry.{Allowed, device_length, cell_start, header_start, map_start};
ghost use Rattle.model.specs.Format.{drawn_vmk, drawn_vek, cell_iv, header_iv_at, format_need, made_cell, made_below, made_text, made_header, made_map};
ghost use Rattle.model.specs.Format.{cell_patches, header_patches, formatted};
ghost use Rattle.model.specs.Conditions.{Counted};
ghost use Rattle.making.specs.Drawn.{Drawn, Makes};

use model::Geometry;
use refusals::Refusal;

// ---- what is drawn

// The bytes drawn, n of them from a place on.
pub fn bytes_at<'a>(drawn: &'a [u8], at: usize, n: usize) -> &'a [u8]
    requires { at + n ≤ length drawn.now }
    ensures { (result.now ≡ part at n drawn.now) × (length result.now ≡ n) }
{
    let end = at + n;
    &drawn[at..end]
}

// The VMK of volume i.
fn vmk_in<'a>(drawn: &'a [u8], g: Geometry, n: usize, i: usize) -> &'a [u8]
    requires { Drawn g n i (length drawn.now) }
    ensures { (result.now ≡ drawn_vmk g drawn.now i) × (length result.now ≡ 32) }
{
    bytes_at(drawn, places::device_length(g) + 64 * i, 32)
}

// The VEK of volume i.
fn vek_in<'a>(drawn: &'a [u8], g: Geometry, n: usize, i: usize) -> &'a [u8]
    requires { Drawn g n i (length drawn.now) }
    ensures { (result.now ≡ drawn_vek g drawn.now i) × (length result.now ≡ 32) }
{
    bytes_at(drawn, places::device_length(g) + 64 * i + 32, 32)
}

// The IV of cell i.
fn cell_iv<'a>(drawn: &'a [u8], g: Geometry, n: usize, i: usize) -> &'a [u8]
    requires { Drawn g n i (length drawn.now) }
    ensures { (result.now ≡ cell_iv g n drawn.now i) × (length result.now ≡ 12) }
{
    bytes_at(drawn, places::device_length(g) + 64 * n + 12 * i, 12)
}

// Where the IVs of header i and of its map blocks begin.
fn header_iv_at(g: Geometry, n: usize, i: usize) -> usize
    requires { Allowed g × (n ≤ 15) × (i < n) }
    ensures { result ≡ header_iv_at g n i }
{
    places::device_length(g) + 76 * n + (12 + 16 * places::map_blocks(g)) * i
}

// ---- cells

// Key cell i over what stood at its place: VMK i sealed under key i.
fn seal_cell(device: &mut [u8], g: Geometry, n: usize, keys: &[u8], drawn: &[u8], i: usize)
    requires { Drawn g n i (length drawn.now) × (length keys.now ≡ 32 * n) × (916 ≤ length device.old) }
    ensures { device.new ≡ overlay device.old (cell_start i) (made_cell g n keys.now drawn.now i) }
{
    let key = places::key_in(keys, i);
    let iv = cell_iv(drawn, g, n, i);
    let vmk = vmk_in(drawn, g, n, i);
    sealing::store_sealed(device, 16 + 60 * i, key, iv, i as u8, vmk);
}

// The cells of all n keys, from 0 up.
pub fn seal_cells(device: &mut [u8], g: Geometry, n: usize, keys: &[u8], drawn: &[u8])
    requires { Makes g n (length keys.now) (length drawn.now) × (916 ≤ length device.old) }
    ensures { device.new ≡ patched (cell_patches g n keys.now drawn.now n) device.old }
{
    for i in 0..n {
        seal_cell(device, g, n, keys, drawn, i);
    }
}

// ---- headers and maps

// The VMK below volume i: 32 zeros below volume 0.
fn key_below(drawn: &[u8], g: Geometry, n: usize, i: usize) -> [u8; 32]
    requires { Drawn g n i (length drawn.now) }
    ensures { result ≡ made_below g drawn.now i }
{
    let mut below = [0u8; 32];
    if i == 0 {
        return below;
    }
    let j = i - 1;
    below.copy_from_slice(vmk_in(drawn, g, n, j));
    below
}

// The text of header i: VEK, VMK of the volume below, the volume's N (document 02, P4), S. All four are stored by their places (`overlay`).
fn header_text(drawn: &[u8], g: Geometry, n: usize, counts: &[usize], i: usize) -> [u8; 72]
    requires { Drawn g n i (length drawn.now) × Counted g.p n counts.now }
    ensures { result ≡ made_text g counts.now drawn.now i }
{
    let mut text = [0u8; 72];
    places::store(&mut text, 0, vek_in(drawn, g, n, i));
    let below = key_below(drawn, g, n, i);
    places::store(&mut text, 32, &below);
    let count = counts[i];
    places::put_number(&mut text, 64, count);
    places::put_number(&mut text, 68, g.s);
    text
}

// Header i over what stood at the start of its first block: its text sealed under VMK i.
fn seal_header(device: &mut [u8], g: Geometry, n: usize, counts: &[usize], drawn: &[u8], i: usize)
    requires { Drawn g n i (length drawn.now) × Counted g.p n counts.now × (length device.old ≡ device_length g) }
    ensures { device.new ≡ overlay device.old (header_start g i)
        (made_header g n counts.now drawn.now i) }
{
    let text = header_text(drawn, g, n, counts, i);
    let vmk = vmk_in(drawn, g, n, i);
    let iv = bytes_at(drawn, header_iv_at(g, n, i), 12);
    let at = places::header_start(g, i);
    sealing::store_sealed(device, at, vmk, iv, (16 + i) as u8, &text);
}

// The map blocks of volume i: nothing is mapped.
fn store_map(device: &mut [u8], g: Geometry, n: usize, drawn: &[u8], i: usize)
    requires { Drawn g n i (length drawn.now) × (length device.old ≡ device_length g) }
    ensures { device.new ≡ overlay device.old (map_start g i) (made_map g n drawn.now i) }
{
    let none = [0u32; 1];
    let vek = vek_in(drawn, g, n, i);
    let at = header_iv_at(g, n, i) + 12;
    mapping::store_maps(device, &none[..0], g, vek, drawn, at, i);
}

// The headers and maps of all n volumes, from 0 up.
fn seal_headers(device: &mut [u8], g: Geometry, n: usize, counts: &[usize], drawn: &[u8])
    requires { Allowed g × (n ≤ 15) × Counted g.p n counts.now × (length drawn.now ≡ format_need g n)
        × (length device.old ≡ device_length g) }
    ensures { device.new ≡ patched (header_patches g n counts.now drawn.now n) device.old }
{
    for i in 0..n {
        seal_header(device, g, n, counts, drawn, i);
        store_map(device, g, n, drawn, i);
    }
}

// ---- all of it

// A formatting is carried out, with the tape bytes that it needs drawn; where it is refused nothing is done.
pub fn carry_out(
    device: &mut [u8],
    g: Geometry,
    n: usize,
    keys: &[u8],
    counts: &[usize],
    drawn: &[u8],
    answer: Result<(), Refusal>,
) -> Result<(), Refusal>
    requires { answer_number answer ≡ 0 → Makes g n (length keys.now) (length drawn.now) × Counted g.p n counts.now
        × (length device.old ≡ device_length g) }
    ensures { (result ≡ answer) × (device.new ≡ unless_refused (answer_number answer)
        (formatted g n keys.now counts.now drawn.now) device.old) }
{
    answer?;
    let noise = bytes_at(drawn, 0, device.len());
    places::copy(device, noise);
    seal_cells(device, g, n, keys, drawn);
    seal_headers(device, g, n, counts, drawn);
    Ok(())
}

// Map blocks: the entries of a volume as bytes, in counter mode under its data key, each block with its own IV.
//
// The entries come as a row of the map table. Past the row's end a map block says unmapped: so the last block is filled up, and a row
// of no entry makes the map of a volume that holds nothing.
#![tactic(auto)]

ghost use Rattle.std.specs.Prelude.{◌≡◌, ◌+◌, ◌-◌, ◌*◌, ◌≤◌, ◌<◌, length, get_or};
ghost use Rattle.model.specs.Parts.{overlay};
ghost use Rattle.model.specs.Geometry.{Allowed, map_blocks, device_length, map_start, map_block_start};
ghost use Rattle.model.specs.Session.{unmapped};
ghost use Rattle.model.specs.Maps.{map_block, map_block_of};
ghost use Rattle.mapping.specs.Rows.{row_text, row_block, row_bytes};

use model::Geometry;

// What a map says of a logical slice: unmapped past the row's end.
fn entry_in(row: &[u32], slice: usize) -> usize
    ensures { result ≡ get_or row.now slice unmapped }
{
    row.get(slice)
        .map_or(tables::UNMAPPED, |&entry| entry as usize)
}

// The entries of map block t as bytes.
fn map_text(row: &[u32], g: Geometry, t: usize, buf: &mut [u8])
    requires { Allowed g × (t < map_blocks g) × (length buf.old ≡ g.b - 16) }
    ensures { buf.new ≡ row_text row.now g t }
{
    let n = places::entries_per_block(g);
    for e in 0..n {
        let entry = entry_in(row, t * n + e);
        places::put_number(buf, e * 4, entry);
    }
}

// Map block t over what stood from a place on: its IV, then its entries in counter mode. Its entries are made in `text`, memory as
// long as they are.
fn store_map_in(
    device: &mut [u8],
    at: usize,
    row: &[u32],
    g: Geometry,
    key: &[u8],
    iv: &[u8],
    t: usize,
    text: &mut [u8],
)
    requires { Allowed g × (length key.now ≡ 32) × (t < map_blocks g) × (length iv.now ≡ 16) × (at + g.b ≤ length device.old) ×
        (length text.old ≡ g.b - 16) }
    ensures { device.new ≡ overlay device.old at (row_block row.now g key.now t iv.now) }
{
    map_text(row, g, t, text);
    places::store(device, at, iv);
    let from = at + 16;
    enciphering::store_ctr(device, from, key, iv, text);
}

// The same with memory of its own for the entries.
fn store_map(
    device: &mut [u8],
    at: usize,
    row: &[u32],
    g: Geometry,
    key: &[u8],
    iv: &[u8],
    t: usize,
)
    requires { Allowed g × (length key.now ≡ 32) × (t < map_blocks g) × (length iv.now ≡ 16) × (at + g.b ≤ length device.old) }
    ensures { device.new ≡ overlay device.old at (row_block row.now g key.now t iv.now) }
{
    let mut text = [0u8; 4096];
    let n = g.b - 16;
    store_map_in(device, at, row, g, key, iv, t, &mut text[..n]);
}

// All map blocks of a volume, each with the next 16 bytes of the tape, from a place of it on, as its IV.
pub fn store_maps(
    device: &mut [u8],
    row: &[u32],
    g: Geometry,
    key: &[u8],
    tape: &[u8],
    position: usize,
    volume: usize,
)
    requires { Allowed g × (length key.now ≡ 32) × (volume ≤ 14) × (position + 16 * map_blocks g ≤ length tape.now) ×
        (length device.old ≡ device_length g) }
    ensures { device.new ≡ overlay device.old (map_start g volume)
        (row_bytes row.now g key.now tape.now position) }
{
    let m = places::map_blocks(g);
    let b = g.b;
    let start = places::map_start(g, volume);
    for t in 0..m {
        let from = position + 16 * t;
        let to = from + 16;
        store_map(device, start + t * b, row, g, key, &tape[from..to], t);
    }
}

// The map block that has the entry of a logical slice, made from the map table, at its place.
pub fn store_block_of(
    device: &mut [u8],
    maps: &[u32],
    g: Geometry,
    key: &[u8],
    iv: &[u8],
    volume: usize,
    logical: usize,
)
    requires { Allowed g × (length maps.now ≡ 15 * g.p) × (length key.now ≡ 32) × (length iv.now ≡ 16) × (volume ≤ 14) × (logical < g.p)
        × (length device.old ≡ device_length g) }
    ensures { device.new ≡ overlay device.old (map_block_start g volume (map_block_of g logical))
        (map_block maps.now g key.now volume (map_block_of g logical) iv.now) }
{
    let t = logical / places::entries_per_block(g);
    let at = places::map_start(g, volume) + g.b * t;
    let from = volume * g.p;
    let to = from + g.p;
    store_map(device, at, &maps[from..to], g, key, iv, t);
}

// The maps of volumes 0 to k: their map blocks deciphered, and their entries loaded into the map table and the owner table.
#![tactic(auto)]

ghost use Rattle.std.specs.Prelude.{◌≡◌, ◌+◌, ◌-◌, ◌*◌, ◌%◌, ◌≤◌, ◌<◌, length};
ghost use Rattle.refusals.specs.Numbers.{answer_number};
ghost use Rattle.ctr_spec.specs.CounterMode.{ctr};
ghost use Rattle.model.specs.Parts.{part};
ghost use Rattle.model.specs.Geometry.{Allowed, map_blocks, device_length, per_block, number_at, header_of};
ghost use Rattle.model.specs.Opening.{stored_entry, map_entries, load};
ghost use Rattle.tables.specs.Settled.{Settled};

use model::Geometry;
use refusals::Refusal;

// The entries of a deciphered map block into the tables, from index n of the map table on.
fn load_entries(
    maps: &mut [u32],
    owners: &mut [u8],
    counts: &[usize],
    text: &[u8],
    n: usize,
    count: usize,
) -> Result<(), Refusal>
    requires { (length maps.old ≡ 15 * length owners.old) × (length owners.old ≤ 4096) × (length counts.now ≡ 15)
        × (n + count ≤ length maps.old) × (4 * count ≤ length text.now) }
    ensures { Settled (load (length owners.old) counts.now (λ i. number_at (4 * (i - n)) text.now) count n
        maps.old owners.old) (answer_number result) maps.new owners.new }
{
    for e in 0..count {
        let x = places::number_at(text, 4 * e);
        tables::settle_one(maps, owners, counts, x, n + e)?;
    }
    Ok(())
}

// Map block t of a header, deciphered, and its first entries into the tables, from index n on.
fn load_block(
    header: &[u8],
    g: Geometry,
    key: &[u8],
    t: usize,
    maps: &mut [u32],
    owners: &mut [u8],
    counts: &[usize],
    n: usize,
    count: usize,
) -> Result<(), Refusal>
    requires { Allowed g × (length key.now ≡ 32) × (length maps.old ≡ 15 * length owners.old) × (length owners.old ≤ 4096) ×
        (length counts.now ≡ 15) × (n + count ≤ length maps.old) × (count ≤ per_block g)
        × (t < map_blocks g) × (g.b * (1 + map_blocks g) ≤ length header.now) }
    ensures { Settled (load (length owners.old) counts.now
        (λ i. number_at (4 * (i - n)) (ctr key.now (part (g.b * (1 + t)) 16 header.now)
        (part (g.b * (1 + t) + 16) (g.b - 16) header.now)))
        count n maps.old owners.old) (answer_number result) maps.new owners.new }
{
    let mut block = [0u8; 4096];
    let text = &mut block[..g.b - 16];
    let from = g.b * (1 + t);
    let at = from + 16;
    let end = from + g.b;
    ctr::ctr_into(key, &header[from..at], &header[at..end], text);
    load_entries(maps, owners, counts, text, n, count)
}

// The map blocks of a volume, from the part of the device that starts at its header, into the tables.
fn load_volume(
    header: &[u8],
    g: Geometry,
    key: &[u8],
    volume: usize,
    maps: &mut [u32],
    owners: &mut [u8],
    counts: &[usize],
) -> Result<(), Refusal>
    requires { Allowed g × (length key.now ≡ 32) × (length maps.old ≡ 15 * g.p) × (length owners.old ≡ g.p) × (length counts.now ≡ 15) ×
        (volume ≤ 14) × (g.b * (1 + map_blocks g) ≤ length header.now) }
    ensures { Settled (load g.p counts.now (λ n. stored_entry g key.now header.now (n % g.p)) g.p (volume * g.p)
        maps.old owners.old) (answer_number result) maps.new owners.new }
{
    let p = g.p;
    let c = places::entries_per_block(g);
    let start = volume * p;
    for t in 0..places::map_blocks(g) {
        let done = t * c;
        let count = c.min(p - done);
        load_block(header, g, key, t, maps, owners, counts, start + done, count)?;
    }
    Ok(())
}

// The maps of volumes 0 to k, each read from the part of the device that starts at its own header.
pub fn load_maps(
    device: &[u8],
    g: Geometry,
    keys: &[u8],
    counts: &[usize],
    k: usize,
    maps: &mut [u32],
    owners: &mut [u8],
) -> Result<(), Refusal>
    requires { Allowed g × (length device.now ≡ device_length g) × (length maps.old ≡ 15 * g.p) × (length owners.old ≡ g.p) × (k ≤ 14) ×
        (length keys.now ≡ 480) × (length counts.now ≡ 15) }
    ensures { Settled (load g.p counts.now (map_entries g (header_of g device.now) keys.now) ((k + 1) * g.p) 0
        maps.old owners.old) (answer_number result) maps.new owners.new }
{
    for v in 0..k + 1 {
        let start = places::header_start(g, v);
        let key = places::key_in(keys, v);
        load_volume(&device[start..], g, key, v, maps, owners, counts)?;
    }
    Ok(())
}

// Opening: the lowest key cell that opens, the chain of headers below it, the maps, and the start place.
//
// `open` is the public call: any arguments. It draws nothing from the tape. Cells above the one that opens, the salt, and
// the rest of the master block and of a header's first block are never read.
#![tactic(auto)]

ghost use Rattle.std.specs.Prelude.{◌≡◌, ◌≤◌, Err, length};
ghost use Rattle.refusals.specs.Numbers.{answer_number};
ghost use Rattle.model.specs.Geometry.{Allowed, device_length, cell_of, header_of};
ghost use Rattle.model.specs.Opening.{first_cell, no_maps, no_owners, open_refusal, no_session, load_maps, with_tables, with_cell, open_model};
ghost use Rattle.model.specs.Answers.{open_result, OpenLeaves};

use model::{Geometry, Opening, Session};
use refusals::Refusal;

// 1 to 5, from the lengths of device, key and tables, and the permutation.
fn open_refusal(
    g: Geometry,
    device: usize,
    key: usize,
    maps: usize,
    owners: usize,
    perm: &[u32],
) -> Result<(), Refusal>
    ensures { answer_number result ≡ open_refusal g device key maps owners perm.now }
{
    places::check_geometry(Refusal::BadGeometry, g)?;
    if device != places::device_length(g) {
        return Err(Refusal::DeviceLength);
    }
    if key != 32 {
        return Err(Refusal::KeyLength);
    }
    if maps != 15 * g.p {
        return Err(Refusal::TableLength);
    }
    if owners != g.p {
        return Err(Refusal::TableLength);
    }
    tables::check_permutation(perm, g.p)
}

// The session of a refused opening: closed, its numbers and keys 0.
fn no_session() -> Session
    ensures { result ≡ no_session }
{
    Session {
        geometry: Geometry { b: 0, s: 0, p: 0 },
        k: 0,
        keys: [0u8; 480],
        opened: false,
        start: 0,
        counts: [0usize; 15],
    }
}

// A refused opening. The answer stands beside the session that is handed back (document 01), so that a step returns this where it refuses.
fn refused(refusal: Refusal) -> Opening
    ensures { (result.answer ≡ Err refusal) × (result.session ≡ no_session) }
{
    Opening {
        answer: Err(refusal),
        session: no_session(),
    }
}

// The maps of volumes 0 to k into tables that hold nothing, which they do again where an entry is bad, and the start place.
fn open_maps(
    device: &[u8],
    g: Geometry,
    k: usize,
    keys: [u8; 480],
    counts: [usize; 15],
    maps: &mut [u32],
    owners: &mut [u8],
    perm: &[u32],
) -> Opening
    requires { Allowed g × (length device.now ≡ device_length g) × (k ≤ 14) × (maps.old ≡ no_maps g) × (owners.old ≡ no_owners g) }
    ensures { OpenLeaves (with_tables g perm.now k keys counts (load_maps g (header_of g device.now) keys counts k))
        (open_result result.answer) maps.new owners.new result.session }
{
    if let Err(r) = loading::load_maps(device, g, &keys, &counts, k, maps, owners) {
        tables::unmap(maps);
        places::clear(owners);
        return refused(r);
    }
    let first = tables::start_place(owners, perm);
    Opening {
        answer: Ok(k),
        session: Session {
            geometry: g,
            k,
            keys,
            opened: true,
            start: first,
            counts,
        },
    }
}

// Cells, headers and maps, into tables that hold nothing.
fn open_volumes(
    device: &[u8],
    g: Geometry,
    key: &[u8],
    maps: &mut [u32],
    owners: &mut [u8],
    perm: &[u32],
) -> Opening
    requires { Allowed g × (length device.now ≡ device_length g) × (length key.now ≡ 32) × (maps.old ≡ no_maps g) × (owners.old ≡ no_owners g) }
    ensures { OpenLeaves (with_cell g perm.now (header_of g device.now)
        (first_cell key.now (cell_of device.now) 15 0))
        (open_result result.answer) maps.new owners.new result.session }
{
    let mut vmk = [0u8; 32];
    match sealing::first_cell(device, key, 15, &mut vmk) {
        None => refused(Refusal::NoCell),
        Some(k) => {
            let mut keys = [0u8; 480];
            let mut counts = [0usize; 15];
            if let Err(r) = chaining::open_chain(device, g, k, &mut vmk, &mut keys, &mut counts) {
                return refused(r);
            }
            open_maps(device, g, k, keys, counts, maps, owners, perm)
        }
    }
}

// Opening of a device with a key: the tables are filled, or left as document 01 says.
pub fn open(
    device: &[u8],
    g: Geometry,
    key: &[u8],
    maps: &mut [u32],
    owners: &mut [u8],
    perm: &[u32],
) -> Opening
    ensures { OpenLeaves (open_model device.now g key.now maps.old owners.old perm.now)
        (open_result result.answer) maps.new owners.new result.session }
{
    if let Err(r) = open_refusal(g, device.len(), key.len(), maps.len(), owners.len(), perm) {
        return refused(r);
    }
    tables::unmap(maps);
    places::clear(owners);
    open_volumes(device, g, key, maps, owners, perm)
}

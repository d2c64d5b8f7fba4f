// What a write stores and leaves once it is decided: a block rewritten, a slice claimed and its map block stored, or nothing.
//
// `carry_out` takes the decision (`deciding::decide`) and the tape bytes that it needs, and sees no tape. All tests are made before
// it, and it asks for what they have shown.
#![tactic(auto)]

ghost use Rattle.std.specs.Prelude.{◌≡◌, ◌+◌, ◌-◌, ◌*◌, ◌≤◌, ◌<◌, length, set};
ghost use Rattle.ctr_spec.specs.CounterMode.{ctr};
ghost use Rattle.model.specs.Parts.{overlay};
ghost use Rattle.model.specs.Geometry.{Allowed, device_length, map_block_start, slice_start, iv_start, block_start};
ghost use Rattle.model.specs.Session.{held, slot};
ghost use Rattle.model.specs.Maps.{map_block, map_block_of};
ghost use Rattle.model.specs.Write.{WriteResult, claimed_bytes};
ghost use Rattle.model.specs.Answers.{write_result, Leaves};
ghost use Rattle.deciding.specs.Decided.{needed, carried, Ready};

use deciding::Decision;
use model::{Change, Geometry, Session, WriteAnswer, Written};
use refusals::Refusal;

// Block j of a slice stored anew under a fresh IV, over the old block where that block begins on the device.
fn rewrite(
    device: &mut [u8],
    g: Geometry,
    key: &[u8],
    iv: &[u8],
    slice: usize,
    j: usize,
    text: &[u8],
)
    requires { Allowed g × (length device.old ≡ device_length g) × (length key.now ≡ 32) × (slice < g.p) × (j < g.s) × (length iv.now ≡ 16)
        × (length text.now ≡ g.b) }
    ensures { device.new ≡ overlay (overlay device.old (iv_start g slice j) iv.now) (block_start g slice j)
        (ctr key.now iv.now text.now) }
{
    let from = places::iv_start(g, slice, j);
    places::store(device, from, iv);
    let at = places::block_start(g, slice, j);
    enciphering::store_ctr(device, at, key, iv, text);
}

// A whole slice: its IV block, then each data block, zeros but for block j.
fn claim(
    device: &mut [u8],
    g: Geometry,
    key: &[u8],
    ivs: &[u8],
    slice: usize,
    j: usize,
    text: &[u8],
)
    requires { Allowed g × (length device.old ≡ device_length g) × (length key.now ≡ 32) × (slice < g.p) × (length ivs.now ≡ g.b) ×
        (length text.now ≡ g.b) }
    ensures { device.new ≡ overlay device.old (slice_start g slice)
        (claimed_bytes g.b g.s key.now ivs.now j text.now) }
{
    let start = places::slice_start(g, slice);
    places::store(device, start, ivs);
    for n in 0..g.s {
        let from = 16 * n;
        let iv = &ivs[from..from + 16];
        let at = places::block_start(g, slice, n);
        if n == j {
            enciphering::store_ctr(device, at, key, iv, text);
        } else {
            enciphering::store_zeros(device, at, key, iv, g.b);
        }
    }
}

// A slice given to a logical slice of a volume: its entry and its owner are set, then the map block that has the entry is stored, made
// from the map table with it (document 02, P7).
fn enter(
    device: &mut [u8],
    maps: &mut [u32],
    owners: &mut [u8],
    g: Geometry,
    key: &[u8],
    iv: &[u8],
    volume: usize,
    logical: usize,
    slice: usize,
)
    requires { Allowed g × (length device.old ≡ device_length g) × (length maps.old ≡ 15 * g.p) × (length owners.old ≡ g.p)
        × (length key.now ≡ 32) × (length iv.now ≡ 16) × (volume ≤ 14) × (logical < g.p) × (slice < g.p) }
    ensures stored { device.new ≡ overlay device.old (map_block_start g volume (map_block_of g logical))
        (map_block (set maps.old (slot g volume logical) slice) g key.now volume (map_block_of g logical) iv.now) }
    ensures mapped { maps.new ≡ set maps.old (slot g volume logical) slice }
    ensures owned { owners.new ≡ set owners.old slice (volume + 1) }
{
    tables::assign(maps, owners, g, volume, logical, slice);
    mapping::store_block_of(device, maps, g, key, iv, volume, logical);
}

// What was decided is carried out, with the tape bytes that it needs drawn. The first B of a claim's are its IV block, and the last 16 the
// IV of the map block that has its entry.
//
// No claim can take a slice that another volume holds: the slice is the model's `first_free` of the owner table as it
// stands at entry (clause `answered`), and the same call sets its owner (clause `owned`), so that the next claim's search
// finds it held. The start place moves past it (clause `handed`).
pub fn carry_out(
    device: &mut [u8],
    maps: &mut [u32],
    owners: &mut [u8],
    drawn: &[u8],
    decision: Decision,
    session: Session,
    volume: usize,
    address: usize,
    text: &[u8],
) -> Written
    requires { Ready (length device.old) maps.old owners.old session volume address (length text.now) (length drawn.now) decision }
    ensures { Leaves WriteResult (carried (held maps.old owners.old 0 session) volume address text.now
        drawn.now decision)
        device.old (write_result result.answer) device.new maps.new owners.new (needed session decision)
        result.session }
{
    let g = session.geometry;
    match decision {
        Decision::Refused { refusal, probes } => Written {
            answer: WriteAnswer::Refused { refusal, probes },
            session,
        },
        // All places from the start place on were looked at, and none is left.
        Decision::Full => Written {
            answer: WriteAnswer::Refused {
                refusal: Refusal::NoFreeSlice,
                probes: g.p - session.start,
            },
            session: requests::starting_at(session, g.p),
        },
        Decision::Rewrite(slice) => {
            let key = places::key_in(&session.keys, volume);
            rewrite(device, g, key, drawn, slice, address % g.s, text);
            Written {
                answer: WriteAnswer::Served {
                    change: Change::Rewritten(slice),
                    probes: 0,
                },
                session,
            }
        }
        Decision::Claim { slice, place } => {
            let key = places::key_in(&session.keys, volume);
            let (ivs, map_iv) = drawn.split_at(g.b);
            claim(device, g, key, ivs, slice, address % g.s, text);
            enter(
                device,
                maps,
                owners,
                g,
                key,
                map_iv,
                volume,
                address / g.s,
                slice,
            );
            Written {
                answer: WriteAnswer::Served {
                    change: Change::Claimed(slice),
                    probes: deciding::probes_to(session, place),
                },
                session: requests::starting_at(session, place + 1),
            }
        }
    }
}

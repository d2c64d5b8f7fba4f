// The claims of a walk (document 01, "The walk program"): a walk's numbers and tables, and the engine's write on them, without
// ciphers and device, decided by the engine's own `deciding::decide`.
//
// `claim` asks for an allowed geometry for which the tables have room, which `frames` tests; a frame's own refusals are left to it
// too.
#![tactic(auto)]

ghost use Rattle.std.specs.Prelude.{◌≡◌, Bool, ℕ, true, ◌+◌, ◌*◌, ◌≤◌, ◌<◌, length};
ghost use Rattle.model.specs.Geometry.{Allowed};
ghost use Rattle.lines.specs.Answers.{answer_bytes};
ghost use Rattle.claims.specs.State.{all_open};
ghost use Rattle.claims.specs.Claims.{written};
ghost use Rattle.claims.specs.Answers.{state_of, walk_of, Decides, Answers, moved, Serves};

use deciding::Decision;
use lines::WalkReply;
use model::{Geometry, Session};
use refusals::Refusal;

// ---- the document's numbers

// Frames 03 of the right length, after which another is malformed.
pub const MOST_CLAIMS: usize = 4096;

// The bytes of the endless tape: 4,096 frames 03, of which none takes more than 4,112 bytes, cannot use it up.
const TAPE: usize = MOST_CLAIMS * 4112;

// The tables have room for 256 slices, the largest P of a walk.
pub const MOST_SLICES: usize = 256;

pub const MAP_ENTRIES: usize = 15 * MOST_SLICES;

// ---- the walk

// A walk: the geometry of the accepted frame 01, whether a frame 01 and a frame 02 were accepted, how many frames 03 of the right
// length came, the tape position, the start place (document 02, P2), and the tables at the start of their arrays, since memory is fixed.
#[derive(Clone, Copy)]
pub struct Walk {
    pub geometry: Geometry,
    pub sized: bool,
    pub shuffled: bool,
    pub counted: usize,
    pub position: usize,
    pub start: usize,
    pub maps: [u32; MAP_ENTRIES],
    pub owners: [u8; MOST_SLICES],
    pub perm: [u32; MOST_SLICES],
}

// ---- the engine's write

// A session with all 15 volumes open, without data keys, each with N = P (document 02, P4).
fn all_open(g: Geometry, start: usize) -> Session
    ensures { result ≡ all_open g start }
{
    Session {
        geometry: g,
        k: 14,
        keys: [0u8; 480],
        opened: true,
        start,
        counts: [g.p; 15],
    }
}

// What the engine decides of a write.
fn decide(
    g: Geometry,
    position: usize,
    start: usize,
    maps: &[u32],
    owners: &[u8],
    perm: &[u32],
    volume: usize,
    address: usize,
) -> Decision
    requires { Allowed g × (15 * g.p ≤ length maps.now) × (g.p ≤ length owners.now) × (g.p ≤ length perm.now) }
    ensures { (sized : Bool) (counted : ℕ)
        → Decides (state_of (walk_of g sized counted position start maps.now owners.now perm.now)) volume address result }
{
    let p = g.p;
    let entries = 15 * p;
    deciding::decide(
        places::device_length(g),
        &maps[..entries],
        &owners[..p],
        &perm[..p],
        TAPE,
        position,
        all_open(g, start),
        volume,
        address,
        g.b,
    )
}

// A served frame 03, which looked at so many places and took so many tape bytes.
fn serve(
    g: Geometry,
    position: &mut usize,
    start: &mut usize,
    slice: usize,
    j: usize,
    probes: usize,
    drawn: usize,
) -> WalkReply
    requires { Allowed g × (slice < g.p) × (j < g.s) × (position.old + drawn ≤ 4096 * 4112) × (start.old + probes ≤ g.p) }
    ensures { (w : Walk) → w.geometry ≡ g → w.position ≡ position.old → w.start ≡ start.old
        → Serves w slice j probes drawn (moved w position.new start.new) result }
{
    *position += drawn;
    *start += probes;
    WalkReply::Served {
        slice,
        block: places::block_start(g, slice, j) / g.b,
        probes,
        position: *position,
    }
}

// The engine's write on lent tables, without ciphers and device: the engine decides, and tables, tape position and start place follow.
pub fn claim(
    g: Geometry,
    position: &mut usize,
    start: &mut usize,
    maps: &mut [u32],
    owners: &mut [u8],
    perm: &[u32],
    volume: usize,
    address: usize,
) -> Result<WalkReply, Refusal>
    requires { Allowed g × (15 * g.p ≤ length maps.old) × (length maps.old ≤ 3840) × (g.p ≤ length owners.old) × (g.p ≤ length perm.now) }
    ensures { (sized : Bool) (counted : ℕ)
        → Answers (written (state_of (walk_of g sized counted position.old start.old maps.old owners.old perm.now)) volume address)
        (state_of (walk_of g sized counted position.new start.new maps.new owners.new perm.now)) (answer_bytes result) }
{
    match decide(g, *position, *start, maps, owners, perm, volume, address) {
        Decision::Refused { refusal, probes: _ } => Err(refusal),
        Decision::Full => {
            *start = g.p;
            Err(Refusal::NoFreeSlice)
        }
        Decision::Rewrite(slice) => Ok(serve(g, position, start, slice, address % g.s, 0, 16)),
        Decision::Claim { slice, place } => {
            tables::assign(maps, owners, g, volume, address / g.s, slice);
            let drawn = deciding::claim_need(g);
            let probes = place + 1 - *start;
            Ok(serve(g, position, start, slice, address % g.s, probes, drawn))
        }
    }
}

impl Walk {
    // The engine's write on the walk's own tables.
    pub fn claim(&mut self, volume: usize, address: usize) -> Result<WalkReply, Refusal>
        requires { Allowed self.old.geometry × (self.old.shuffled ≡ true) × (self.old.geometry.p ≤ 256) }
        ensures written { Answers (written (state_of self.old) volume address) (state_of self.new) (answer_bytes result) }
        ensures perm { self.new.perm ≡ self.old.perm }
    {
        let g = self.geometry;
        claim(
            g,
            &mut self.position,
            &mut self.start,
            &mut self.maps,
            &mut self.owners,
            &self.perm,
            volume,
            address,
        )
    }
}

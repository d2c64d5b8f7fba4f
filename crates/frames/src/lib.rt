// The frames of a walk (document 01, "The walk program"): what each leaves and answers, by its bytes.
//
// `on_frame` takes any walk and any frame of at most 513 bytes. A claim or a rewrite is left to `claims`, the digits of a line and of
// its answer to `lines`.
#![tactic(auto)]

ghost use Rattle.std.specs.Prelude.{◌≡◌, true, ◌+◌, ◌*◌, ◌≤◌, length, take};
ghost use Rattle.block.specs.Bytes.{number};
ghost use Rattle.model.specs.Parts.{part};
ghost use Rattle.model.specs.Permutation.{missing};
ghost use Rattle.lines.specs.Hexadecimal.{Bytes};
ghost use Rattle.lines.specs.Answers.{answer_bytes};
ghost use Rattle.claims.specs.Claims.{written};
ghost use Rattle.claims.specs.Answers.{state_of, Answers};
ghost use Rattle.frames.specs.Frames.{pairs, on_size, on_order, on_claim, on_frame};

use claims::{MOST_CLAIMS, MOST_SLICES, Walk};
use lines::WalkReply;
use model::Geometry;
use refusals::Refusal;

// ---- any frame

// A frame by its kind.
pub fn on_frame(walk: &mut Walk, bytes: &[u8]) -> Result<WalkReply, Refusal>
    requires { length bytes.now ≤ 513 }
    ensures { Answers (on_frame (state_of walk.old) (Bytes bytes.now)) (state_of walk.new) (answer_bytes result) }
{
    let Some((kind, fields)) = bytes.split_first() else {
        return Err(Refusal::MalformedLine);
    };
    match *kind {
        1 => on_size(walk, fields),
        2 => on_order(walk, fields),
        3 => on_claim(walk, fields),
        _ => Err(Refusal::MalformedLine),
    }
}

// ---- numbers

// The number in the two bytes from a place on.
fn pair_at(s: &[u8], at: usize) -> u16
    requires { at + 2 ≤ length s.now }
    ensures { result ≡ number (part at 2 s.now) }
{
    u16::from_be_bytes([s[at], s[at + 1]])
}

// ---- frame 01

// Frame 01: the geometry, with empty maps.
fn on_size(walk: &mut Walk, fields: &[u8]) -> Result<WalkReply, Refusal>
    ensures { Answers (on_size (state_of walk.old) fields.now) (state_of walk.new) (answer_bytes result) }
{
    if fields.len() != 6 {
        return Err(Refusal::MalformedLine);
    }
    if walk.sized {
        return Err(Refusal::MalformedLine);
    }
    let g = Geometry {
        b: usize::from(pair_at(fields, 0)),
        s: usize::from(pair_at(fields, 2)),
        p: usize::from(pair_at(fields, 4)),
    };
    if MOST_SLICES < g.p {
        return Err(Refusal::BadGeometry);
    }
    places::check_geometry(Refusal::BadGeometry, g)?;
    walk.geometry = g;
    walk.sized = true;
    walk.shuffled = false;
    walk.position = 0;
    walk.start = 0;
    tables::unmap(&mut walk.maps);
    walk.owners.fill(0);
    Ok(WalkReply::Accepted)
}

// ---- frame 02

// The numbers of two bytes each, end to end.
fn read_pairs(bytes: &[u8], numbers: &mut [u32])
    requires { length bytes.now ≡ 2 * length numbers.old }
    ensures { numbers.new ≡ pairs bytes.now }
{
    for (i, n) in numbers.iter_mut().enumerate() {
        *n = u32::from(pair_at(bytes, 2 * i));
    }
}

// The slices of a frame 02 at the start of the permutation; answers whether a slice below p is missing.
fn set_order(perm: &mut [u32], fields: &[u8], p: usize) -> bool
    requires { (p ≤ 4096) × (p ≤ length perm.old) × (length fields.now ≡ 2 * p) }
    ensures { (take p perm.new ≡ pairs fields.now) × (result ≡ missing p (pairs fields.now)) }
{
    read_pairs(fields, &mut perm[..p]);
    tables::is_missing(&perm[..p], p)
}

// Frame 02: the permutation.
fn on_order(walk: &mut Walk, fields: &[u8]) -> Result<WalkReply, Refusal>
    requires { length fields.now ≤ 512 }
    ensures { Answers (on_order (state_of walk.old) fields.now) (state_of walk.new) (answer_bytes result) }
{
    if walk.shuffled {
        return Err(Refusal::MalformedLine);
    }
    if !walk.sized {
        return Err(Refusal::NotOpen);
    }
    let p = walk.geometry.p;
    if MOST_SLICES < p {
        return Err(Refusal::BadPermutation);
    }
    if fields.len() != 2 * p {
        return Err(Refusal::BadPermutation);
    }
    if set_order(&mut walk.perm, fields, p) {
        return Err(Refusal::BadPermutation);
    }
    walk.shuffled = true;
    Ok(WalkReply::Accepted)
}

// ---- frame 03

// A claim or a rewrite of any walk: none has a geometry that is not allowed, a start place above P or a P above 256, and the engine
// would refuse them so.
fn check_and_claim(walk: &mut Walk, volume: usize, address: usize) -> Result<WalkReply, Refusal>
    requires { walk.old.shuffled ≡ true }
    ensures { Answers (written (state_of walk.old) volume address) (state_of walk.new) (answer_bytes result) }
{
    let g = walk.geometry;
    places::check_geometry(Refusal::NotOpen, g)?;
    if g.p < walk.start {
        return Err(Refusal::NotOpen);
    }
    if MOST_SLICES < g.p {
        return Err(Refusal::TableLength);
    }
    walk.claim(volume, address)
}

// Frame 03: a claim or a rewrite. Each one of the right length is counted, also where it is refused.
fn on_claim(walk: &mut Walk, fields: &[u8]) -> Result<WalkReply, Refusal>
    ensures { Answers (on_claim (state_of walk.old) fields.now) (state_of walk.new) (answer_bytes result) }
{
    if fields.len() != 5 {
        return Err(Refusal::MalformedLine);
    }
    if MOST_CLAIMS <= walk.counted {
        return Err(Refusal::MalformedLine);
    }
    walk.counted += 1;
    if !walk.sized {
        return Err(Refusal::NotOpen);
    }
    if !walk.shuffled {
        return Err(Refusal::NotOpen);
    }
    check_and_claim(walk, usize::from(fields[0]), places::number_at(fields, 1))
}

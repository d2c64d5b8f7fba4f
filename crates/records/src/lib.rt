// The structs that the C functions are lent (include/hiwalgam.h), read and written as bytes: a geometry and a session. Reading asks
// nothing but the struct's size: any bytes are some geometry or session. The answer of a write stands in crate `replies`.
#![tactic(auto)]

ghost use Rattle.std.specs.Prelude.{◌≡◌, ◌+◌, ◌≤◌, ◌<◌, length};
ghost use Rattle.model.specs.Parts.{part, overlay};
ghost use Rattle.records.specs.Numbers.{eight_at, eight_bytes, numbers_at, numbers_bytes, three_bytes};
ghost use Rattle.records.specs.Structs.{geometry_in, session_in, session_bytes, handed_back};
ghost use Rattle.records.specs.Theorems.{RecordLaws};

use model::{Geometry, Session};

// ---- numbers

// The number of the eight bytes of r from place at on.
fn eight_at(r: &[u8], at: usize) -> usize
    requires { at + 8 ≤ length r.now }
    ensures { result ≡ eight_at at r.now }
{
    let mut bytes = [0u8; 8];
    bytes.copy_from_slice(&r[at..at + 8]);
    usize::from_le_bytes(bytes)
}

// The eight bytes of n over those of r from place at on.
fn put_eight(r: &mut [u8], at: usize, n: usize)
    requires { at + 8 ≤ length r.old }
    ensures { r.new ≡ overlay r.old at (eight_bytes n) }
{
    let bytes = n.to_le_bytes();
    places::store(r, at, &bytes);
}

// Three numbers over the bytes of r from place at on.
pub fn put_three(r: &mut [u8], at: usize, x: usize, y: usize, z: usize)
    requires { at + 24 ≤ length r.old }
    ensures { r.new ≡ overlay r.old at (three_bytes x y z) }
{
    put_eight(r, at, x);
    put_eight(r, at + 8, y);
    put_eight(r, at + 16, z);
}

// ---- geometry and session

// The geometry that begins a struct.
pub fn geometry_in(r: &[u8]) -> Geometry
    requires { 24 ≤ length r.now }
    ensures { result ≡ geometry_in r.now }
{
    Geometry {
        b: eight_at(r, 0),
        s: eight_at(r, 8),
        p: eight_at(r, 16),
    }
}

// The data keys in a session's struct.
fn keys_in(r: &[u8]) -> [u8; 480]
    requires { length r.now ≡ 648 }
    ensures { result ≡ part 48 480 r.now }
{
    let mut keys = [0u8; 480];
    keys.copy_from_slice(&r[48..528]);
    keys
}

// The counts in it.
fn counts_in(r: &[u8]) -> [usize; 15]
    requires { length r.now ≡ 648 }
    ensures { result ≡ numbers_at 15 528 r.now }
{
    let mut counts = [0usize; 15];
    // By index, since each is read at a place of its own.
    for i in 0..15 {
        counts[i] = eight_at(r, 528 + 8 * i);
    }
    counts
}

// The session in its struct.
pub fn session_in(r: &[u8]) -> Session
    requires { length r.now ≡ 648 }
    ensures { result ≡ session_in r.now }
{
    Session {
        geometry: geometry_in(r),
        k: eight_at(r, 24),
        keys: keys_in(r),
        opened: eight_at(r, 32) == 1,
        start: eight_at(r, 40),
        counts: counts_in(r),
    }
}

// Counts into the struct of a session.
fn put_counts(r: &mut [u8], counts: &[usize])
    requires { (length r.old ≡ 648) × (length counts.now ≡ 15) }
    ensures { r.new ≡ overlay r.old 528 (numbers_bytes counts.now) }
{
    for (i, n) in counts.iter().enumerate() {
        put_eight(r, 528 + 8 * i, *n);
    }
}

// A session into its struct.
pub fn put_session(r: &mut [u8], s: Session)
    requires { length r.old ≡ 648 }
    ensures { r.new ≡ session_bytes s }
{
    let g = s.geometry;
    put_three(r, 0, g.b, g.s, g.p);
    put_three(r, 24, s.k, usize::from(s.opened), s.start);
    places::store(r, 48, &s.keys);
    put_counts(r, &s.counts);
}

// A session into its struct where the call was served or found no free slice; another refusal leaves the bytes. The answer comes as the
// number that C is given: those of a write, a release and a close have types of their own.
pub fn hand_back(r: &mut [u8], s: Session, number: u8)
    requires { length r.old ≡ 648 }
    ensures { r.new ≡ handed_back number (session_bytes s) r.old }
{
    if number == 0 || number == 22 {
        put_session(r, s);
    }
}

// ---- laws

// What is written reads back. Nothing runs, and the check has to prove it.
pub fn record_laws()
    ensures { RecordLaws }
{}

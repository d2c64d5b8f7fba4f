// The lent tables: the map table, the owner table and the permutation.
#![tactic(auto)]

ghost use Rattle.std.specs.Prelude.{◌≡◌, ◌+◌, ◌*◌, ◌≤◌, ◌<◌, length, replicate, set};
ghost use Rattle.refusals.specs.Numbers.{answer_number};
ghost use Rattle.model.specs.Parts.{any_below};
ghost use Rattle.model.specs.Session.{slot, entry, unmapped, placed, bad_entry_at};
ghost use Rattle.model.specs.Permutation.{missing, bad_permutation, place_of};
ghost use Rattle.model.specs.Opening.{settle, Tables};
ghost use Rattle.model.specs.Search.{first_free, start_place};
ghost use Rattle.tables.specs.Flagged.{flagged};
ghost use Rattle.tables.specs.Settled.{Settled};

use model::{Geometry, Search};
use refusals::Refusal;

// The mark of an unmapped logical slice (document 01: FFFFFFFF).
pub const UNMAPPED: usize = 4294967295;

// ---- the map table

// The entry of a logical slice of a volume.
pub fn entry_at(maps: &[u32], g: Geometry, volume: usize, slice: usize) -> usize
    requires { slot g volume slice < length maps.now }
    ensures { result ≡ entry maps.now g volume slice }
{
    let at = volume * g.p + slice;
    maps[at] as usize
}

// Every entry the mark.
pub fn unmap(maps: &mut [u32])
    ensures { maps.new ≡ replicate (length maps.old) unmapped }
{
    maps.fill(UNMAPPED as u32);
}

// Whether a slice may stand as the entry of a logical slice, in a volume with a count of them: it is below p, and the logical slice
// below the count (document 02, P4).
fn is_placed(p: usize, count: usize, logical: usize, slice: usize) -> bool
    ensures { result ≡ placed p count logical slice }
{
    slice < p && logical < count
}

// Whether an entry is neither the mark nor a slice that may stand there. Told as `&&`, `any_bad` takes twice as long.
fn is_bad(p: usize, count: usize, logical: usize, entry: usize) -> bool
    ensures { result ≡ bad_entry_at p count logical entry }
{
    !(entry == UNMAPPED || is_placed(p, count, logical, entry))
}

// Whether one of n entries of a volume, from that of a logical slice on, is neither the mark nor a slice that may stand there.
pub fn any_bad(
    maps: &[u32],
    g: Geometry,
    volume: usize,
    count: usize,
    first: usize,
    n: usize,
) -> bool
    requires { slot g volume first + n ≤ length maps.now }
    ensures { result ≡ any_below (λ e. bad_entry_at g.p count (first + e) (entry maps.now g volume (first + e))) n }
{
    (0..n).any(|e| is_bad(g.p, count, first + e, entry_at(maps, g, volume, first + e)))
}

// A free slice given to a logical slice of a volume: its entry names the slice, and its owner is the volume.
pub fn assign(
    maps: &mut [u32],
    owners: &mut [u8],
    g: Geometry,
    volume: usize,
    logical: usize,
    slice: usize,
)
    requires { (length maps.old ≤ 15 * 4096) × (slot g volume logical < length maps.old) × (slice < length owners.old) × (slice < 4096)
        × (volume ≤ 14) }
    ensures mapped { maps.new ≡ set maps.old (slot g volume logical) slice }
    ensures owned { owners.new ≡ set owners.old slice (volume + 1) }
{
    let at = volume * g.p + logical;
    maps[at] = slice as u32;
    owners[slice] = (volume + 1) as u8;
}

// A slice given back by a logical slice of a volume: its entry is the mark, and its owner 0 (document 02, P5).
// Not one function with `assign`: entry and owner as two more arguments are no plainer than the two stores here.
pub fn unassign(
    maps: &mut [u32],
    owners: &mut [u8],
    g: Geometry,
    volume: usize,
    logical: usize,
    slice: usize,
)
    requires { (slot g volume logical < length maps.old) × (slice < length owners.old) }
    ensures mapped { maps.new ≡ set maps.old (slot g volume logical) unmapped }
    ensures owned { owners.new ≡ set owners.old slice 0 }
{
    let at = volume * g.p + logical;
    maps[at] = UNMAPPED as u32;
    owners[slice] = 0;
}

// ---- the permutation

// One flag for each slice that the permutation names, in scratch memory of its own, so that the lent tables stay.
#[tactic(auto, using(crate::proofs::Flags::flagged_done))]
fn flag_named(perm: &[u32], named: &mut [u8])
    ensures { named.new ≡ flagged perm.now named.old }
{
    for slice in perm {
        let slice = *slice as usize;
        if slice < named.len() {
            named[slice] = 1;
        }
    }
}

// Whether a slice below p is not named by the permutation; linear in its length.
pub fn is_missing(perm: &[u32], p: usize) -> bool
    requires { p ≤ 4096 }
    ensures { result ≡ missing p perm.now }
{
    let mut named = [0u8; 4096];
    flag_named(perm, &mut named);
    named[..p].contains(&0)
}

// 5, of the whole permutation: its length, then whether a slice below p is missing.
#[tactic(auto, using(std::proofs::lemmas::Bool::Decides::nat_tests), unfolding(refusals::specs::Numbers::refuse))]
pub fn check_permutation(perm: &[u32], p: usize) -> Result<(), Refusal>
    requires { p ≤ 4096 }
    ensures { answer_number result ≡ bad_permutation p perm.now 0 }
{
    if perm.len() != p || is_missing(perm, p) {
        return Err(Refusal::BadPermutation);
    }
    Ok(())
}

// The place of a slice in the permutation: the first that names it, the permutation's length where none does (document 02, P5).
pub fn place_of(perm: &[u32], slice: usize) -> usize
    ensures { result ≡ place_of slice perm.now }
{
    perm.iter()
        .position(|&named| named as usize == slice)
        .unwrap_or(perm.len())
}

// The first place of the permutation, from a start on, whose slice is free.
#[tactic(auto, using(crate::proofs::Places::search_bad, crate::proofs::Places::search_free, crate::proofs::Places::search_next, crate::proofs::Places::search_done), unfolding(model::specs::Search::first_free))]
pub fn first_free(owners: &[u8], perm: &[u32], start: usize) -> Search
    ensures { result ≡ first_free owners.now (length owners.now) start perm.now }
{
    for place in start..perm.len() {
        let slice = perm[place] as usize;
        if owners.len() <= slice {
            return Search::Bad(place);
        }
        if owners[slice] == 0 {
            return Search::Free { slice, place };
        }
    }
    Search::Full
}

// The start place of an opening: the first free place, or P, the number of owners (document 02, P2).
pub fn start_place(owners: &[u8], perm: &[u32]) -> usize
    ensures { result ≡ start_place (length owners.now)
        (first_free owners.now (length owners.now) 0 perm.now) }
{
    match first_free(owners, perm, 0) {
        Search::Free { place, .. } => place,
        Search::Bad(_) | Search::Full => owners.len(),
    }
}

// ---- loading

// Entry x at index i of the map table into the tables so far, or refusal 9 or 10.
pub fn settle_one(
    maps: &mut [u32],
    owners: &mut [u8],
    counts: &[usize],
    x: usize,
    i: usize,
) -> Result<(), Refusal>
    requires { (length maps.old ≡ 15 * length owners.old) × (length owners.old ≤ 4096) × (length counts.now ≡ 15) × (i < length maps.old) }
    ensures { Settled (settle (length owners.old) counts.now x i maps.old owners.old Tables)
        (answer_number result) maps.new owners.new }
{
    if x == UNMAPPED {
        return Ok(());
    }
    let p = owners.len();
    let volume = i / p;
    if !is_placed(p, counts[volume], i % p, x) {
        return Err(Refusal::BadEntry);
    }
    if owners[x] != 0 {
        return Err(Refusal::SliceTwice);
    }
    maps[i] = x as u32;
    owners[x] = (volume + 1) as u8;
    Ok(())
}

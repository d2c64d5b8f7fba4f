// What a write is to do, before anything is written: the refusals in their order, the map block and the search of a claim, and the
// tape.
//
// `decide` takes any arguments. It looks at the tables and at the lengths of device, text and tape, never at their bytes.
#![tactic(auto)]

ghost use Rattle.std.specs.Prelude.{◌≡◌, List, ℕ, ◌≤◌, length};
ghost use Rattle.refusals.specs.Numbers.{answer_number};
ghost use Rattle.model.specs.Session.{held};
ghost use Rattle.model.specs.Write.{claim_need, write_refusal, probes_to};
ghost use Rattle.deciding.specs.Decided.{Decided, Looked, Sized, needed};

use model::{Geometry, Search, Session};
use refusals::Refusal;

// A write is refused, with the places looked at, and changes nothing; or it finds no free slice (22), which moves the start
// place; or it rewrites a block of the slice that its entry names; or it claims the free slice that was found at a place of the
// permutation.
#[derive(Clone, Copy)]
pub enum Decision {
    Refused { refusal: Refusal, probes: usize },
    Full,
    Rewrite(usize),
    Claim { slice: usize, place: usize },
}

// All refusals of a write before its map block, its search and its tape.
#[tactic(auto, using(std::proofs::lemmas::Bool::Decides::nat_tests, model::proofs::Requests::standing_none, model::proofs::Requests::standing_stands), unfolding(model::specs::Write::write_refusal, refusals::specs::Numbers::refuse))]
fn write_refusal(
    device: usize,
    maps: &[u32],
    owners: &[u8],
    session: Session,
    volume: usize,
    address: usize,
    len: usize,
    perm: usize,
) -> Result<(), Refusal>
    ensures { answer_number result ≡ write_refusal device maps.now owners.now session volume address len perm }
{
    requests::check_standing(device, maps.len(), owners.len(), session)?;
    let g = session.geometry;
    if perm != g.p {
        return Err(Refusal::BadPermutation);
    }
    requests::check_asked(maps, session, volume, address, len)
}

// The number of places looked at, from the start place up to a place that the search came to.
pub fn probes_to(session: Session, place: usize) -> usize
    requires { Looked session place }
    ensures { result ≡ probes_to session place }
{
    place + 1 - session.start
}

// The tape bytes of a claim: its IV block, then the IV of the map block that has its entry (document 02, P7).
pub fn claim_need(g: Geometry) -> usize
    requires { g.b ≤ 4096 }
    ensures { result ≡ claim_need g }
{
    g.b + 16
}

// The decision on a write of len bytes to a device of so many bytes, with a tape of so many bytes and its position. What
// it says holds of the model's write for every text and every tape of these lengths.
#[tactic(auto, using(std::proofs::lemmas::Bool::Decides::nat_tests, model::proofs::Requests::write_refusal_none, model::proofs::Requests::asked_slice, model::proofs::Bounds::b_bounds, crate::proofs::Outcomes::rewrite_short, crate::proofs::Outcomes::claim_block, crate::proofs::Outcomes::claim_bad, crate::proofs::Outcomes::bad_place, crate::proofs::Outcomes::claim_full, crate::proofs::Outcomes::free_place, crate::proofs::Outcomes::claim_short))]
pub fn decide(
    device: usize,
    maps: &[u32],
    owners: &[u8],
    perm: &[u32],
    tape: usize,
    position: usize,
    session: Session,
    volume: usize,
    address: usize,
    len: usize,
) -> Decision
    ensures { (text bytes : List ℕ) → length text ≡ len → length bytes ≡ tape
        → Decided device (held maps.now owners.now position session) volume address text perm.now bytes result }
{
    // No `?`: a decision has four outcomes, and a refusal among them that moves the start place.
    if let Err(refusal) = write_refusal(
        device,
        maps,
        owners,
        session,
        volume,
        address,
        len,
        perm.len(),
    ) {
        return Decision::Refused { refusal, probes: 0 };
    }
    let g = session.geometry;
    let logical = address / g.s;
    let entry = tables::entry_at(maps, g, volume, logical);
    if entry < g.p {
        if tape::is_short(tape, position, 16) {
            return Decision::Refused {
                refusal: Refusal::TapeShort,
                probes: 0,
            };
        }
        return Decision::Rewrite(entry);
    }
    if requests::is_block_bad(maps, session, volume, logical) {
        return Decision::Refused {
            refusal: Refusal::BadEntry,
            probes: 0,
        };
    }
    match tables::first_free(owners, perm, session.start) {
        Search::Bad(place) => Decision::Refused {
            refusal: Refusal::BadPermutation,
            probes: probes_to(session, place),
        },
        Search::Full => Decision::Full,
        Search::Free { slice, place } => {
            if tape::is_short(tape, position, claim_need(g)) {
                return Decision::Refused {
                    refusal: Refusal::TapeShort,
                    probes: probes_to(session, place),
                };
            }
            Decision::Claim { slice, place }
        }
    }
}

// The tape bytes that a decision draws.
pub fn need(decision: Decision, session: Session) -> usize
    requires { Sized session decision }
    ensures { result ≡ needed session decision }
{
    match decision {
        Decision::Refused { .. } | Decision::Full => 0,
        Decision::Rewrite(_) => 16,
        Decision::Claim { .. } => claim_need(session.geometry),
    }
}

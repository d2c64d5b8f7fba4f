// What refuses a release (document 02, P5 and P7), before anything is changed: the tests in their order.
//
// `release_refusal` takes any arguments. It looks at the tables, at the permutation and at the lengths of device and tape, never at
// their bytes.
#![tactic(auto)]

ghost use Rattle.std.specs.Prelude.{◌≡◌, ◌*◌, ◌≤◌, ◌<◌, length};
ghost use Rattle.refusals.specs.Numbers.{answer_number};
ghost use Rattle.model.specs.Session.{held};
ghost use Rattle.model.specs.Release.{release_refusal};
ghost use Rattle.model.specs.Conditions.{Usable};
ghost use Rattle.judging.specs.Judged.{slice_refusal};

use model::Session;
use refusals::Refusal;

// 9, 25 and 21, of a logical slice that may be asked for.
#[tactic(auto, using(std::proofs::lemmas::Bool::Decides::nat_tests, model::proofs::Bounds::slot_lt), unfolding(refusals::specs::Numbers::refuse))]
fn check_slice(
    maps: &[u32],
    tape: usize,
    position: usize,
    session: Session,
    volume: usize,
    logical: usize,
) -> Result<(), Refusal>
    requires { Usable session × (length maps.now ≡ 15 * session.geometry.p) × (volume ≤ session.k) × (logical < session.geometry.p) }
    ensures { answer_number result ≡ slice_refusal maps.now session volume logical tape position }
{
    let g = session.geometry;
    if requests::is_block_bad(maps, session, volume, logical) {
        return Err(Refusal::BadEntry);
    }
    if tables::entry_at(maps, g, volume, logical) == tables::UNMAPPED {
        return Err(Refusal::SliceUnmapped);
    }
    if tape::is_short(tape, position, 16) {
        return Err(Refusal::TapeShort);
    }
    Ok(())
}

// All refusals of a release.
#[tactic(auto, using(std::proofs::lemmas::Bool::Decides::nat_tests, model::proofs::Requests::standing_none, model::proofs::Requests::standing_stands), unfolding(model::specs::Release::release_refusal, refusals::specs::Numbers::refuse))]
pub fn release_refusal(
    device: usize,
    maps: &[u32],
    owners: &[u8],
    perm: &[u32],
    tape: usize,
    position: usize,
    session: Session,
    volume: usize,
    logical: usize,
) -> Result<(), Refusal>
    ensures { answer_number result ≡ release_refusal device (held maps.now owners.now position session) volume logical
        perm.now tape }
{
    requests::check_standing(device, maps.len(), owners.len(), session)?;
    let g = session.geometry;
    tables::check_permutation(perm, g.p)?;
    requests::check_volume(session.k, volume)?;
    let counts = session.counts;
    if counts[volume] <= logical {
        return Err(Refusal::AddressAbove);
    }
    check_slice(maps, tape, position, session, volume, logical)
}

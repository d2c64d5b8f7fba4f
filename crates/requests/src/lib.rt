// What the requests of a session share: their refusals for what is wrong with the session, the device and the tables, with the
// volume, the block or the entry that is asked for, and with the entry's map block; and the session with another start place.
// Refusals are tested in the order of documents 01 and 02; a call adds its own before, between or behind them.
#![tactic(auto, using(std::proofs::lemmas::Bool::Decides::nat_tests), unfolding(refusals::specs::Numbers::refuse))]

ghost use Rattle.std.specs.Prelude.{◌≡◌, ◌*◌, ◌≤◌, ◌<◌, length};
ghost use Rattle.refusals.specs.Numbers.{answer_number, refuse};
ghost use Rattle.model.specs.Session.{starting_at, block_count, slot, entry, bad_entry, standing, asked_volume, asked};
ghost use Rattle.model.specs.Maps.{bad_in_block};
ghost use Rattle.model.specs.Conditions.{Usable};

use model::{Geometry, Session};
use refusals::Refusal;

// 20, 2 and 4, from the lengths of the device and the tables. The session, its counts too, is tested before any arithmetic
// on it.
#[tactic(auto, using(std::proofs::lemmas::Bool::Decides::nat_tests, model::proofs::Tests::bad_geometry_none, model::proofs::Tests::bad_geometry_allowed), unfolding(model::specs::Session::standing, refusals::specs::Numbers::refuse))]
pub fn check_standing(
    device: usize,
    maps: usize,
    owners: usize,
    session: Session,
) -> Result<(), Refusal>
    ensures { answer_number result ≡ standing device maps owners session 0 }
{
    if !session.opened {
        return Err(Refusal::NotOpen);
    }
    let g = session.geometry;
    places::check_geometry(Refusal::NotOpen, g)?;
    if 14 < session.k || g.p < session.start {
        return Err(Refusal::NotOpen);
    }
    // A copy of the counts, here and below: lent in place, they keep all of the session in memory, its data keys too, where nobody uses these.
    let counts = session.counts;
    if places::any_bad_count(&counts, g.p, session.k + 1) {
        return Err(Refusal::NotOpen);
    }
    if device != places::device_length(g) {
        return Err(Refusal::DeviceLength);
    }
    if maps != 15 * g.p || owners != g.p {
        return Err(Refusal::TableLength);
    }
    Ok(())
}

// 11, of a volume asked for where k is opened.
pub fn check_volume(k: usize, volume: usize) -> Result<(), Refusal>
    ensures { answer_number result ≡ asked_volume k volume 0 }
{
    if k < volume {
        return Err(Refusal::VolumeAbove);
    }
    Ok(())
}

// 9, of the entry of a logical slice alone.
fn check_entry(maps: &[u32], g: Geometry, volume: usize, logical: usize) -> Result<(), Refusal>
    requires { slot g volume logical < length maps.now }
    ensures { answer_number result ≡ refuse (bad_entry g.p (entry maps.now g volume logical)) 9 0 }
{
    let entry = tables::entry_at(maps, g, volume, logical);
    if entry != tables::UNMAPPED && g.p <= entry {
        return Err(Refusal::BadEntry);
    }
    Ok(())
}

// 9, of the map block that has the entry of a logical slice: whether one of its entries is neither the mark nor a slice that stands
// below the volume's count (document 02, P7). In the last block the entries end at P.
#[tactic(auto, using(model::proofs::Bounds::per_block_least), unfolding(model::specs::Maps::bad_in_block))]
pub fn is_block_bad(maps: &[u32], session: Session, volume: usize, logical: usize) -> bool
    requires { Usable session × (length maps.now ≡ 15 * session.geometry.p) × (volume ≤ session.k) × (logical < session.geometry.p) }
    ensures { result ≡ bad_in_block maps.now session volume logical }
{
    let g = session.geometry;
    let per_block = places::entries_per_block(g);
    let first = logical / per_block * per_block;
    let n = per_block.min(g.p - first);
    let counts = session.counts;
    tables::any_bad(maps, g, volume, counts[volume], first, n)
}

// The blocks of an open volume: N × S (document 02, P4).
pub fn block_count(session: Session, volume: usize) -> usize
    requires { Usable session × (volume ≤ session.k) }
    ensures { result ≡ block_count session volume }
{
    let counts = session.counts;
    counts[volume] * session.geometry.s
}

// 11, 12, 13 and 9 of a block asked for in a session that stands. The address is tested before it is divided.
#[tactic(auto, using(std::proofs::lemmas::Bool::Decides::nat_tests, model::proofs::Bounds::slot_lt, model::proofs::Bounds::slice_of_lt), unfolding(model::specs::Session::asked, refusals::specs::Numbers::refuse))]
pub fn check_asked(
    maps: &[u32],
    session: Session,
    volume: usize,
    address: usize,
    len: usize,
) -> Result<(), Refusal>
    requires { Usable session × (length maps.now ≡ 15 * session.geometry.p) }
    ensures { answer_number result ≡ asked maps.now session volume address len }
{
    check_volume(session.k, volume)?;
    let g = session.geometry;
    if block_count(session, volume) <= address {
        return Err(Refusal::AddressAbove);
    }
    if len != g.b {
        return Err(Refusal::WrongLength);
    }
    check_entry(maps, g, volume, address / g.s)
}

// The session with another start place, from which the next claim looks.
pub fn starting_at(session: Session, start: usize) -> Session
    ensures { result ≡ starting_at start session }
{
    Session { start, ..session }
}

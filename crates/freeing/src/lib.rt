// What a release needs of the tape, stores and leaves once it is judged: its entry is the mark, the slice is free, and the map block that
// has the entry is stored; or nothing. The slice's bytes stay on the device.
//
// `carry_out` takes the answer (`judging::release_refusal`) and the tape bytes that it needs, and sees no tape. All tests are made
// before it, and it asks for what they have shown.
#![tactic(auto)]

ghost use Rattle.std.specs.Prelude.{◌≡◌, length};
ghost use Rattle.model.specs.Session.{held};
ghost use Rattle.model.specs.Release.{ReleaseResult};
ghost use Rattle.model.specs.Answers.{release_result, Leaves};
ghost use Rattle.freeing.specs.Carried.{needed, carried, Ready};

use model::{Released, Session};
use refusals::Refusal;

// The tape bytes that a release draws: none where it is refused.
pub fn need(answer: Result<(), Refusal>) -> usize
    ensures { result ≡ needed answer }
{
    match answer {
        Ok(()) => 16,
        Err(_) => 0,
    }
}

// A release is carried out, with the tape bytes that it needs drawn; where it is refused nothing is done. The map block is made once the
// entry is the mark.
pub fn carry_out(
    device: &mut [u8],
    maps: &mut [u32],
    owners: &mut [u8],
    perm: &[u32],
    drawn: &[u8],
    answer: Result<(), Refusal>,
    session: Session,
    volume: usize,
    logical: usize,
) -> Released
    requires { Ready answer (length device.old) maps.old owners.old session volume logical perm.now (length drawn.now) }
    ensures { Leaves ReleaseResult (carried answer (held maps.old owners.old 0 session) volume logical perm.now
        drawn.now)
        device.old (release_result result.answer) device.new maps.new owners.new (needed answer)
        result.session }
{
    // No `?`: the session is handed back beside the answer (document 01).
    if let Err(refusal) = answer {
        return Released {
            answer: Err(refusal),
            session,
        };
    }
    let g = session.geometry;
    let slice = tables::entry_at(maps, g, volume, logical);
    let place = tables::place_of(perm, slice);
    let first = session.start.min(place);
    tables::unassign(maps, owners, g, volume, logical, slice);
    let key = places::key_in(&session.keys, volume);
    mapping::store_block_of(device, maps, g, key, drawn, volume, logical);
    Released {
        answer: Ok(slice),
        session: requests::starting_at(session, first),
    }
}

// The C function that gives a slice back, for libhiwalgam.a (include/hiwalgam.h): release.
//
// Arguments pass as in `c_ciphers`. The struct of the session is lent as its bytes, which crate `records` reads and writes. Where it
// has another size than the header's, the answer is 13 before everything else, and all that was lent stays.
#![tactic(auto)]

ghost use Rattle.std.specs.Prelude.{length};
ghost use Rattle.model.specs.Session.{held};
ghost use Rattle.model.specs.Release.{release_model};
ghost use Rattle.records.specs.Structs.{session_in};
ghost use Rattle.c_releasing.specs.Handed.{ReleaseHanded, HandedLaws};

// Release of a logical slice.
#[unsafe(no_mangle)]
pub extern "C" fn hiwalgam_release(
    device: &mut [u8],
    maps: &mut [u32],
    owners: &mut [u8],
    perm: &[u32],
    tape: &[u8],
    position: &mut usize,
    session: &mut [u8],
    volume: usize,
    logical: usize,
    slice: &mut usize,
) -> u8
    ensures { ReleaseHanded session.old (release_model (length device.old) (held maps.old
        owners.old position.old (session_in session.old)) volume logical perm.now
        tape.now) device.old maps.old owners.old position.old slice.old result
        device.new maps.new owners.new position.new session.new slice.new }
{
    if session.len() != 648 {
        return 13;
    }
    let s = records::session_in(session);
    let r = lending::release_at(
        device, maps, owners, perm, tape, position, s, volume, logical,
    );
    replies::put_freed(slice, r.answer);
    let number = refusals::answer_number(r.answer);
    records::hand_back(session, r.session, number);
    number
}

// What the contract fixes: nothing runs, and the check has to prove it.
pub fn handed_laws()
    ensures { HandedLaws }
{}

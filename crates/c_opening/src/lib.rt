// The C function that makes a session, for libhiwalgam.a (include/hiwalgam.h): open.
//
// Arguments pass as in `c_ciphers`. The structs of the header are lent as their bytes, which crate `records` reads and writes.
// A struct of another size than the header's is 13 before everything else, and then all that was lent stays.
#![tactic(auto)]

ghost use Rattle.model.specs.Opening.{open_model};
ghost use Rattle.records.specs.Structs.{geometry_in};
ghost use Rattle.c_opening.specs.Handed.{OpenHanded, HandedLaws};

// Opening: answers 0 or the refusal, and sets tables and session.
#[unsafe(no_mangle)]
pub extern "C" fn hiwalgam_open(
    device: &[u8],
    geometry: &[u8],
    key: &[u8],
    maps: &mut [u32],
    owners: &mut [u8],
    perm: &[u32],
    session: &mut [u8],
) -> u8
    ensures { OpenHanded geometry.now session.old (open_model device.now (geometry_in geometry.now)
        key.now maps.old owners.old perm.now) maps.old owners.old result
        maps.new owners.new session.new }
{
    if geometry.len() != 24 {
        return 13;
    }
    if session.len() != 648 {
        return 13;
    }
    let g = records::geometry_in(geometry);
    let o = opening::open(device, g, key, maps, owners, perm);
    records::put_session(session, o.session);
    refusals::answer_number(o.answer)
}

// What the contract fixes: nothing runs, and the check has to prove it.
pub fn handed_laws()
    ensures { HandedLaws }
{}

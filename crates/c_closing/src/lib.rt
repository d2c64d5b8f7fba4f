// The C function that ends a session, for libhiwalgam.a (include/hiwalgam.h): close.
//
// Arguments pass as in `c_ciphers`. The struct of the session is lent as its bytes, which crate `records` reads and writes. Where it
// has another size than the header's, the answer is 13 before everything else, and all that was lent stays.
#![tactic(auto)]

ghost use Rattle.std.specs.Prelude.{ℕ, length};
ghost use Rattle.model.specs.Session.{held};
ghost use Rattle.model.specs.Close.{close_model};
ghost use Rattle.records.specs.Structs.{session_in};
ghost use Rattle.c_closing.specs.Handed.{CloseHanded, HandedLaws};

// Close, whatever the tape position: no tape is lent.
#[unsafe(no_mangle)]
pub extern "C" fn hiwalgam_close(
    device: &[u8],
    maps: &mut [u32],
    owners: &mut [u8],
    session: &mut [u8],
) -> u8
    ensures { (position : ℕ) → CloseHanded session.old (close_model (length device.now) (held maps.old
        owners.old position (session_in session.old))) device.now maps.old owners.old
        position result maps.new owners.new session.new }
{
    if session.len() != 648 {
        return 13;
    }
    let s = records::session_in(session);
    let r = closing::close(device, maps, owners, s);
    let number = refusals::answer_number(r.answer);
    records::hand_back(session, r.session, number);
    number
}

// What the contract fixes: nothing runs, and the check has to prove it.
pub fn handed_laws()
    ensures { HandedLaws }
{}

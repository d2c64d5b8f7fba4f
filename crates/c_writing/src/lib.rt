// The C function that writes a block, for libhiwalgam.a (include/hiwalgam.h): write.
//
// Arguments pass as in `c_ciphers`. The structs of the header are lent as their bytes: crate `records` reads and writes the session's,
// and `replies` writes the answer's. A struct of another size than the header's is 13 before everything else, and then all that was lent
// stays; but the answer of the write is told where its own struct has its size.
#![tactic(auto)]

ghost use Rattle.std.specs.Prelude.{length};
ghost use Rattle.model.specs.Session.{held};
ghost use Rattle.model.specs.Write.{write_model};
ghost use Rattle.records.specs.Structs.{session_in};
ghost use Rattle.c_writing.specs.Handed.{WriteHanded, HandedLaws};

use model::WriteAnswer;
use refusals::Refusal;

// Write of a block.
#[unsafe(no_mangle)]
pub extern "C" fn hiwalgam_write(
    device: &mut [u8],
    maps: &mut [u32],
    owners: &mut [u8],
    perm: &[u32],
    tape: &[u8],
    position: &mut usize,
    session: &mut [u8],
    volume: usize,
    address: usize,
    text: &[u8],
    written: &mut [u8],
) -> u8
    ensures { WriteHanded session.old written.old (write_model (length device.old) (held maps.old
        owners.old position.old (session_in session.old)) volume address text.now perm.now
        tape.now) device.old maps.old owners.old position.old result device.new
        maps.new owners.new position.new session.new written.new }
{
    if written.len() != 24 {
        return 13;
    }
    if session.len() != 648 {
        replies::put_written(
            written,
            WriteAnswer::Refused {
                refusal: Refusal::WrongLength,
                probes: 0,
            },
        );
        return 13;
    }
    let s = records::session_in(session);
    let w = lending::write_at(
        device, maps, owners, perm, tape, position, s, volume, address, text,
    );
    replies::put_written(written, w.answer);
    let number = replies::write_number(w.answer);
    records::hand_back(session, w.session, number);
    number
}

// What the contract fixes: nothing runs, and the check has to prove it.
pub fn handed_laws()
    ensures { HandedLaws }
{}

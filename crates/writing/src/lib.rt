// Write: rewriting a mapped block and claiming a slice for an unmapped one.
//
// `write` is the public call: any arguments, the tape position lent as one record. It is a straight line: what is decided
// (`deciding::decide`, all tests, before the first byte is written and before the position moves), the draw, and the
// carrying out (`storing::carry_out`).
#![tactic(auto)]

ghost use Rattle.std.specs.Prelude.{length};
ghost use Rattle.model.specs.Session.{held};
ghost use Rattle.model.specs.Write.{WriteResult, write_model};
ghost use Rattle.model.specs.Answers.{write_result, Leaves};

use model::{Session, TapePosition, Written};

// Write of a block, the tape position lent as a record.
pub fn write(
    device: &mut [u8],
    maps: &mut [u32],
    owners: &mut [u8],
    perm: &[u32],
    tape: &[u8],
    position: &mut TapePosition,
    session: Session,
    volume: usize,
    address: usize,
    text: &[u8],
) -> Written
    ensures { Leaves WriteResult (write_model (length device.old)
        (held maps.old owners.old position.old.at session) volume address text.now perm.now
        tape.now)
        device.old (write_result result.answer) device.new maps.new owners.new position.new.at
        result.session }
{
    let decision = deciding::decide(
        device.len(),
        maps,
        owners,
        perm,
        tape.len(),
        position.at,
        session,
        volume,
        address,
        text.len(),
    );
    let drawn = tape::draw(tape, position, deciding::need(decision, session));
    storing::carry_out(
        device, maps, owners, drawn, decision, session, volume, address, text,
    )
}

// Release of one logical slice (document 02, P5 and P7): its entry becomes the mark, the slice is free, and the map block that has the
// entry is stored.
//
// `release` is the public call: any arguments, the tape position lent as one record. It is a straight line: what refuses it
// (`judging::release_refusal`, all tests, before anything is changed and before the position moves), the draw, and the carrying out
// (`freeing::carry_out`).
#![tactic(auto)]

ghost use Rattle.std.specs.Prelude.{length};
ghost use Rattle.model.specs.Session.{held};
ghost use Rattle.model.specs.Release.{ReleaseResult, release_model};
ghost use Rattle.model.specs.Answers.{release_result, Leaves};

use model::{Released, Session, TapePosition};

// Release of a logical slice, answered with the slice freed, the tape position lent as a record.
pub fn release(
    device: &mut [u8],
    maps: &mut [u32],
    owners: &mut [u8],
    perm: &[u32],
    tape: &[u8],
    position: &mut TapePosition,
    session: Session,
    volume: usize,
    logical: usize,
) -> Released
    ensures { Leaves ReleaseResult (release_model (length device.old)
        (held maps.old owners.old position.old.at session) volume logical perm.now tape.now)
        device.old (release_result result.answer) device.new maps.new owners.new position.new.at
        result.session }
{
    let answer = judging::release_refusal(
        device.len(),
        maps,
        owners,
        perm,
        tape.len(),
        position.at,
        session,
        volume,
        logical,
    );
    let drawn = tape::draw(tape, position, freeing::need(answer));
    freeing::carry_out(
        device, maps, owners, perm, drawn, answer, session, volume, logical,
    )
}

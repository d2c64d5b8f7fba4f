// The calls that draw, for a caller that has the tape position as a plain number: the C functions and the demonstration.
//
// The record is made in a local, lent to the call, and its number read back, so that callers need no record of their own.
// Each function does that itself: one over a closure would save it two lines, but its contract would have to speak of what the closure
// is before and after the call.
#![tactic(auto)]

ghost use Rattle.std.specs.Prelude.{length};
ghost use Rattle.model.specs.Session.{held};
ghost use Rattle.model.specs.Write.{WriteResult, write_model};
ghost use Rattle.model.specs.Release.{ReleaseResult, release_model};
ghost use Rattle.model.specs.Format.{format_model};
ghost use Rattle.model.specs.Shuffle.{shuffle_model};
ghost use Rattle.model.specs.Answers.{write_result, release_result, Leaves, LentLeaves};
ghost use Rattle.refusals.specs.Numbers.{answer_number};

use model::{Geometry, Released, Session, TapePosition, Written};
use refusals::Refusal;

// `writing::write` with the tape position as a number.
pub fn write_at(
    device: &mut [u8],
    maps: &mut [u32],
    owners: &mut [u8],
    perm: &[u32],
    tape: &[u8],
    at: &mut usize,
    session: Session,
    volume: usize,
    address: usize,
    text: &[u8],
) -> Written
    ensures { Leaves WriteResult (write_model (length device.old)
        (held maps.old owners.old at.old session) volume address text.now perm.now
        tape.now)
        device.old (write_result result.answer) device.new maps.new owners.new at.new result.session }
{
    let mut position = TapePosition { at: *at };
    let w = writing::write(
        device,
        maps,
        owners,
        perm,
        tape,
        &mut position,
        session,
        volume,
        address,
        text,
    );
    *at = position.at;
    w
}

// `releasing::release` with the tape position as a number.
pub fn release_at(
    device: &mut [u8],
    maps: &mut [u32],
    owners: &mut [u8],
    perm: &[u32],
    tape: &[u8],
    at: &mut usize,
    session: Session,
    volume: usize,
    logical: usize,
) -> Released
    ensures { Leaves ReleaseResult (release_model (length device.old)
        (held maps.old owners.old at.old session) volume logical perm.now tape.now)
        device.old (release_result result.answer) device.new maps.new owners.new at.new result.session }
{
    let mut position = TapePosition { at: *at };
    let r = releasing::release(
        device,
        maps,
        owners,
        perm,
        tape,
        &mut position,
        session,
        volume,
        logical,
    );
    *at = position.at;
    r
}

// `formatting::format` with the tape position as a number.
pub fn format_at(
    device: &mut [u8],
    g: Geometry,
    volumes: usize,
    keys: &[u8],
    counts: &[usize],
    tape: &[u8],
    at: &mut usize,
) -> Result<(), Refusal>
    ensures { LentLeaves (format_model (length device.old) g volumes keys.now counts.now tape.now
        at.old) device.old at.old (answer_number result) device.new at.new }
{
    let mut position = TapePosition { at: *at };
    let r = formatting::format(device, g, volumes, keys, counts, tape, &mut position);
    *at = position.at;
    r
}

// `shuffling::shuffle` with the tape position as a number.
pub fn shuffle_at(g: Geometry, perm: &mut [u32], tape: &[u8], at: &mut usize) -> Result<(), Refusal>
    ensures { LentLeaves (shuffle_model g (length perm.old) tape.now at.old) perm.old
        at.old (answer_number result) perm.new at.new }
{
    let mut position = TapePosition { at: *at };
    let r = shuffling::shuffle(g, perm, tape, &mut position);
    *at = position.at;
    r
}

// Shuffle (document 02, P6): the lent list becomes a permutation, made from the tape.
//
// `shuffle` is the public call: any arguments, the tape position lent as one record. The list is made (`make`: refusals, then draws from
// the rest of the tape), and one draw moves the position past the bytes that this used. What the list held before is never read.
#![tactic(auto)]

ghost use Rattle.std.specs.Prelude.{◌≡◌, ◌-◌, ◌≤◌, length, drop};
ghost use Rattle.std.specs.Result.{result_unwrap_or};
ghost use Rattle.refusals.specs.Numbers.{answer_number};
ghost use Rattle.model.specs.Shuffle.{in_order, run, draws, shuffled, shuffle_refusal, shuffle_model};
ghost use Rattle.model.specs.Answers.{LentLeaves};
ghost use Rattle.ordering.specs.Made.{Makes};

use model::{Geometry, TapePosition};
use refusals::Refusal;

// ---- the list

// 0, 1, .. in order.
fn set_in_order(list: &mut [u32])
    requires { length list.old ≤ 4096 }
    ensures { list.new ≡ in_order (length list.old) }
{
    for (i, x) in list.iter_mut().enumerate() {
        *x = i as u32;
    }
}

// ---- the call

// 1, 4 and 21 of a position past the end, from the lengths of list and tape.
fn shuffle_refusal(g: Geometry, list: usize, tape: usize, position: usize) -> Result<(), Refusal>
    ensures { answer_number result ≡ shuffle_refusal g list tape position }
{
    places::check_geometry(Refusal::BadGeometry, g)?;
    if list != g.p {
        return Err(Refusal::TableLength);
    }
    if tape < position {
        return Err(Refusal::TapeShort);
    }
    Ok(())
}

// The permutation made in a list beside the lent one, which becomes it, or stays where the tape ends first; the tape bytes used.
fn make_beside(
    list: &mut [u32],
    perm: &mut [u32],
    tape: &[u8],
    position: usize,
) -> Result<usize, Refusal>
    requires { (length list.old ≡ length perm.old) × (1 ≤ length perm.old) × (length perm.old ≤ 4096)
        × (position ≤ length tape.now) }
    ensures { Makes (shuffled (length perm.old - 1) (in_order (length perm.old)) position
        (run (length perm.old - 1) (draws (drop position tape.now))))
        perm.old (length tape.now) position (answer_number result) perm.new (result_unwrap_or result 0) }
{
    set_in_order(list);
    let used = ordering::order(list, tape, position)?;
    perm.copy_from_slice(list);
    Ok(used)
}

// All of a shuffle but the moving of the position; the tape bytes used.
fn make(g: Geometry, perm: &mut [u32], tape: &[u8], position: usize) -> Result<usize, Refusal>
    ensures { Makes (shuffle_model g (length perm.old) tape.now position)
        perm.old (length tape.now) position (answer_number result) perm.new (result_unwrap_or result 0) }
{
    shuffle_refusal(g, perm.len(), tape.len(), position)?;
    let p = perm.len();
    let mut list = [0u32; 4096];
    make_beside(&mut list[..p], perm, tape, position)
}

// Shuffle of the lent list (document 02, P6), the tape position lent as a record: one draw for all the bytes used.
pub fn shuffle(
    g: Geometry,
    perm: &mut [u32],
    tape: &[u8],
    position: &mut TapePosition,
) -> Result<(), Refusal>
    ensures { LentLeaves (shuffle_model g (length perm.old) tape.now position.old.at)
        perm.old position.old.at (answer_number result) perm.new position.new.at }
{
    let used = make(g, perm, tape, position.at)?;
    tape::draw(tape, position, used);
    Ok(())
}

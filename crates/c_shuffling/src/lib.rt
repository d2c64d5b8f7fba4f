// The C function that makes a permutation, for libhiwalgam.a (include/hiwalgam.h): shuffle.
//
// Arguments pass as in `c_ciphers`. The struct of the geometry is lent as its bytes, which crate `records` reads. Where it has another
// size than the header's, the answer is 13 before everything else, and all that was lent stays.
#![tactic(auto)]

ghost use Rattle.std.specs.Prelude.{length};
ghost use Rattle.model.specs.Shuffle.{shuffle_model};
ghost use Rattle.records.specs.Structs.{geometry_in};
ghost use Rattle.replies.specs.Lent.{LentHanded};

// Shuffle of the lent list: answers 0 or the refusal.
#[unsafe(no_mangle)]
pub extern "C" fn hiwalgam_shuffle(
    geometry: &[u8],
    perm: &mut [u32],
    tape: &[u8],
    position: &mut usize,
) -> u8
    ensures { LentHanded geometry.now (shuffle_model (geometry_in geometry.now) (length perm.old)
        tape.now position.old) perm.old position.old result perm.new position.new }
{
    if geometry.len() != 24 {
        return 13;
    }
    let g = records::geometry_in(geometry);
    let answer = lending::shuffle_at(g, perm, tape, position);
    refusals::answer_number(answer)
}

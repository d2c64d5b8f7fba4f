// The C function that makes a device, for libhiwalgam.a (include/hiwalgam.h): format.
//
// Arguments pass as in `c_ciphers`. The struct of the geometry is lent as its bytes, which crate `records` reads. Where it has another
// size than the header's, the answer is 13 before everything else, and all that was lent stays.
#![tactic(auto)]

ghost use Rattle.model.specs.Format.{format_model};
ghost use Rattle.std.specs.Prelude.{length};
ghost use Rattle.records.specs.Structs.{geometry_in};
ghost use Rattle.replies.specs.Lent.{LentHanded};

// Formatting: answers 0 or the refusal.
#[unsafe(no_mangle)]
pub extern "C" fn hiwalgam_format(
    device: &mut [u8],
    geometry: &[u8],
    volumes: usize,
    keys: &[u8],
    counts: &[usize],
    tape: &[u8],
    position: &mut usize,
) -> u8
    ensures { LentHanded geometry.now (format_model (length device.old) (geometry_in geometry.now) volumes
        keys.now counts.now tape.now position.old) device.old position.old result device.new
        position.new }
{
    if geometry.len() != 24 {
        return 13;
    }
    let g = records::geometry_in(geometry);
    let answer = lending::format_at(device, g, volumes, keys, counts, tape, position);
    refusals::answer_number(answer)
}

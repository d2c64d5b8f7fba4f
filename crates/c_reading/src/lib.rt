// The C function that reads a block, for libhiwalgam.a (include/hiwalgam.h): read.
//
// Arguments pass as in `c_ciphers`. The session is lent as the bytes of its struct, which crate `records` reads. One of another size
// than the header's is 13 before everything else.
#![tactic(auto)]

ghost use Rattle.std.specs.Prelude.{◌≡◌, length};
ghost use Rattle.model.specs.Parts.{choose};
ghost use Rattle.model.specs.Read.{read_model};
ghost use Rattle.model.specs.Answers.{read_number, read_buffer};
ghost use Rattle.records.specs.Structs.{session_sized, session_in};

// Read of a block into buf.
#[unsafe(no_mangle)]
pub extern "C" fn hiwalgam_read(
    device: &[u8],
    maps: &[u32],
    owners: &[u8],
    session: &[u8],
    volume: usize,
    address: usize,
    buf: &mut [u8],
) -> u8
    ensures answer { result ≡ choose (session_sized session.now) (read_number (read_model device.now maps.now
        owners.now (session_in session.now) volume address (length buf.old))) 13 }
    ensures buffer { buf.new ≡ choose (session_sized session.now) (read_buffer (read_model device.now
        maps.now owners.now (session_in session.now) volume address (length buf.old))
        buf.old) buf.old }
{
    if session.len() != 648 {
        return 13;
    }
    let s = records::session_in(session);
    let r = reading::read(device, maps, owners, s, volume, address, buf);
    refusals::answer_number(r.answer)
}

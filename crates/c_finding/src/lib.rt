// The C function that finds a block's ciphertext, for libhiwalgam.a (include/hiwalgam.h): find.
//
// Arguments pass as in `c_ciphers`. The session is lent as the bytes of its struct, which crate `records` reads. One of another size
// than the header's finds nothing.
#![tactic(auto)]

ghost use Rattle.std.specs.Prelude.{◌≡◌, length};
ghost use Rattle.model.specs.Parts.{choose};
ghost use Rattle.model.specs.Read.{find_model};
ghost use Rattle.records.specs.Structs.{session_sized, session_in};
ghost use Rattle.c_finding.specs.Copied.{copied_over};

// Finding: the length of the found part, whose bytes are copied to the start of out where it has room for them.
#[unsafe(no_mangle)]
pub extern "C" fn hiwalgam_find(
    device: &[u8],
    maps: &[u32],
    owners: &[u8],
    session: &[u8],
    volume: usize,
    address: usize,
    out: &mut [u8],
) -> usize
    ensures length { result ≡ choose (session_sized session.now) (length (find_model device.now maps.now
        owners.now (session_in session.now) volume address)) 0 }
    ensures output { out.new ≡ choose (session_sized session.now) (copied_over (find_model device.now
        maps.now owners.now (session_in session.now) volume address) out.old) out.old }
{
    if session.len() != 648 {
        return 0;
    }
    let s = records::session_in(session);
    let found = reading::find(device, maps, owners, s, volume, address);
    let n = found.len();
    if n <= out.len() {
        places::store(out, 0, found);
    }
    n
}

// Read and find.
//
// `read` and `find` are public calls: any arguments. Neither draws from the tape, and neither changes device or tables.
#![tactic(auto)]

ghost use Rattle.std.specs.Prelude.{◌≡◌, ◌+◌, ◌<◌, length};
ghost use Rattle.refusals.specs.Numbers.{answer_number};
ghost use Rattle.model.specs.Geometry.{Allowed, device_length};
ghost use Rattle.model.specs.Read.{deciphered, read_refusal, read_model, find_model};
ghost use Rattle.model.specs.Answers.{read_number, read_buffer};

use model::{Geometry, Reply, Session};
use refusals::Refusal;

// All refusals of a read with a buffer of room bytes.
fn read_refusal(
    device: usize,
    maps: &[u32],
    owners: &[u8],
    session: Session,
    volume: usize,
    address: usize,
    room: usize,
) -> Result<(), Refusal>
    ensures { answer_number result ≡ read_refusal device maps.now owners.now session volume address room }
{
    requests::check_standing(device, maps.len(), owners.len(), session)?;
    requests::check_asked(maps, session, volume, address, room)
}

// Data block j of the slice that an entry names, deciphered; zeros where it names none.
fn decipher(device: &[u8], g: Geometry, key: &[u8], entry: usize, j: usize, buf: &mut [u8])
    requires { Allowed g × (length device.now ≡ device_length g) × (length key.now ≡ 32) × (j < g.s) × (length buf.old ≡ g.b) }
    ensures { buf.new ≡ deciphered g key.now entry j device.now }
{
    if entry < g.p {
        let iv = places::iv_start(g, entry, j);
        let at = places::block_start(g, entry, j);
        ctr::ctr_into(key, &device[iv..iv + 16], &device[at..at + g.b], buf);
    } else {
        buf.fill(0);
    }
}

// Read of a block: the buffer is filled, or left as it was by a refusal.
pub fn read(
    device: &[u8],
    maps: &[u32],
    owners: &[u8],
    session: Session,
    volume: usize,
    address: usize,
    buf: &mut [u8],
) -> Reply
    ensures answer { answer_number result.answer ≡ read_number (read_model device.now maps.now
        owners.now session volume address (length buf.old)) }
    ensures buffer { buf.new ≡ read_buffer (read_model device.now maps.now
        owners.now session volume address (length buf.old)) buf.old }
    ensures session { result.session ≡ session }
{
    // No `?`: the session is handed back beside the answer (document 01).
    let refused = read_refusal(
        device.len(),
        maps,
        owners,
        session,
        volume,
        address,
        buf.len(),
    );
    if let Err(refusal) = refused {
        return Reply {
            answer: Err(refusal),
            session,
        };
    }
    let g = session.geometry;
    // A copy: `requests::check_standing` says why.
    let keys = session.keys;
    let key = places::key_in(&keys, volume);
    let entry = tables::entry_at(maps, g, volume, address / g.s);
    decipher(device, g, key, entry, address % g.s, buf);
    Reply {
        answer: Ok(()),
        session,
    }
}

// Finding: the part of the lent device that holds a block's ciphertext, empty where a read with a right buffer would be
// refused or the slice is unmapped.
pub fn find<'a>(
    device: &'a [u8],
    maps: &[u32],
    owners: &[u8],
    session: Session,
    volume: usize,
    address: usize,
) -> &'a [u8]
    ensures { result.now ≡ find_model device.now maps.now owners.now session volume address }
{
    let g = session.geometry;
    let refused = read_refusal(device.len(), maps, owners, session, volume, address, g.b);
    if let Err(_) = refused {
        return &[];
    }
    let entry = tables::entry_at(maps, g, volume, address / g.s);
    if entry < g.p {
        let at = places::block_start(g, entry, address % g.s);
        &device[at..at + g.b]
    } else {
        &[]
    }
}

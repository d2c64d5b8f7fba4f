// A demonstration of the engine: a small device image with two volumes is formatted, a permutation is drawn for it, and it is opened, read
// and changed by sessions that are dropped without a close, each of which finds what the one before it left. A last one is closed, which
// wipes it; then the image is opened with the key of the lower volume, and with one that opens nothing. Every answer is printed.
// Keys and tape are fixed bytes here, so that each run prints the same; a real device has them drawn at random.
#![tactic(auto)]

use model::{Change, Geometry, Session, WriteAnswer};
use refusals::Refusal;
use std::io;

// ---- printing

fn say_position(to: &impl Print, position: usize) -> io::Result<()> {
    println!(to; ", tape position {position}")
}

fn say_refusal(to: &impl Print, refusal: Refusal) -> io::Result<()> {
    print!(to; "refused, {}", u8::from(refusal))
}

fn say_open(
    to: &impl Print,
    answer: Result<usize, Refusal>,
    start: usize,
    counts: [usize; 15],
) -> io::Result<()> {
    match answer {
        Ok(k) => {
            print!(to; "opened to volume {k}, start place {start}, slices of its volumes")?;
            // Above the opened volume the count is 0.
            for n in &counts[..] {
                if *n != 0 {
                    print!(to; " {n}")?;
                }
            }
        }
        Err(r) => say_refusal(to, r)?,
    }
    println!(to)
}

fn say_write(to: &impl Print, answer: WriteAnswer, position: usize) -> io::Result<()> {
    match answer {
        WriteAnswer::Served {
            change: Change::Claimed(slice),
            probes,
        } => {
            print!(to; "claimed slice {slice}, places looked at {probes}")?;
        }
        WriteAnswer::Served {
            change: Change::Rewritten(slice),
            probes,
        } => {
            print!(to; "rewrote slice {slice}, places looked at {probes}")?;
        }
        WriteAnswer::Refused { refusal, probes } => {
            say_refusal(to, refusal)?;
            print!(to; ", places looked at {probes}")?;
        }
    }
    say_position(to, position)
}

fn say_release(
    to: &impl Print,
    answer: Result<usize, Refusal>,
    start: usize,
    position: usize,
) -> io::Result<()> {
    match answer {
        Ok(slice) => print!(to; "freed slice {slice}")?,
        Err(r) => say_refusal(to, r)?,
    }
    print!(to; ", start place {start}")?;
    say_position(to, position)
}

fn say_answer(to: &impl Print, answer: Result<(), Refusal>) -> io::Result<()> {
    match answer {
        Ok(()) => print!(to; "served"),
        Err(r) => say_refusal(to, r),
    }
}

// ---- the image

// The geometry of the image: B 1,024, S 4, P 4; 52,224 bytes.
fn geometry() -> Geometry {
    Geometry {
        b: 1024,
        s: 4,
        p: 4,
    }
}

// The caller's keys: of volume 0, of volume 1, and one of no volume.
fn caller_key(i: usize) -> [u8; 32] {
    [(1 + i % 3) as u8; 32]
}

// The keys of volumes 0 and 1 end to end.
fn caller_keys() -> [u8; 64] {
    let mut keys = [0u8; 64];
    keys[..32].copy_from_slice(&caller_key(0));
    keys[32..].copy_from_slice(&caller_key(1));
    keys
}

// Bytes that differ from place to place, for the tape.
fn fill(bytes: &mut [u8]) {
    for (i, b) in bytes.iter_mut().enumerate() {
        *b = (i % 251) as u8;
    }
}

// ---- the calls

fn show_format(
    to: &impl Print,
    words: &str,
    device: &mut [u8],
    keys: &[u8],
    tape: &[u8],
    at: &mut usize,
) -> io::Result<()> {
    print!(to; "format with {words}: ")?;
    let counts = [4usize, 2];
    let answer = lending::format_at(device, geometry(), 2, keys, &counts, tape, at);
    say_answer(to, answer)?;
    say_position(to, *at)
}

// The device is made, with 4 logical slices for volume 0 and 2 for volume 1: not with one key for both volumes, since it would open
// the lower one alone.
fn show_making(to: &impl Print, device: &mut [u8], tape: &[u8], at: &mut usize) -> io::Result<()> {
    let twice = [1u8; 64];
    show_format(to, "one key twice", device, &twice, tape, at)?;
    let keys = caller_keys();
    show_format(to, "keys 0 and 1", device, &keys, tape, at)
}

fn show_shuffle(to: &impl Print, perm: &mut [u32], tape: &[u8], at: &mut usize) -> io::Result<()> {
    print!(to; "shuffle a list of {} places: ", perm.len())?;
    let answer = lending::shuffle_at(geometry(), perm, tape, at);
    say_answer(to, answer)?;
    if answer.is_ok() {
        // The slices in the order in which claims look for a free one.
        print!(to; ", order")?;
        for slice in perm {
            print!(to; " {slice}")?;
        }
    }
    say_position(to, *at)
}

// The permutation is drawn: not into a list of 3 places, since there are 4 slices.
fn show_drawing(to: &impl Print, perm: &mut [u32], tape: &[u8], at: &mut usize) -> io::Result<()> {
    let mut three = [0u32; 3];
    show_shuffle(to, &mut three, tape, at)?;
    show_shuffle(to, perm, tape, at)
}

fn show_open(
    to: &impl Print,
    device: &[u8],
    key: usize,
    maps: &mut [u32],
    owners: &mut [u8],
    perm: &[u32],
) -> io::Result<Session> {
    print!(to; "open with key {key}: ")?;
    let o = opening::open(device, geometry(), &caller_key(key), maps, owners, perm);
    say_open(to, o.answer, o.session.start, o.session.counts)?;
    Ok(o.session)
}

fn show_read(
    to: &impl Print,
    device: &[u8],
    maps: &[u32],
    owners: &[u8],
    session: Session,
    volume: usize,
    address: usize,
) -> io::Result<()> {
    print!(to; "read block {address} of volume {volume}: ")?;
    let mut buf = [255u8; 1024];
    let r = reading::read(device, maps, owners, session, volume, address, &mut buf);
    say_answer(to, r.answer)?;
    if r.answer.is_ok() {
        print!(to; ", the block begins")?;
        for b in &buf[..4] {
            print!(to; " {b}")?;
        }
    }
    println!(to)
}

// Block 5 written, with bytes that tell the session.
fn show_write(
    to: &impl Print,
    device: &mut [u8],
    maps: &mut [u32],
    owners: &mut [u8],
    perm: &[u32],
    tape: &[u8],
    at: &mut usize,
    session: Session,
    volume: usize,
    n: usize,
) -> io::Result<()> {
    print!(to; "write block 5 of volume {volume}: ")?;
    let text = [(1 + n % 3) as u8; 1024];
    let w = lending::write_at(
        device, maps, owners, perm, tape, at, session, volume, 5, &text,
    );
    say_write(to, w.answer, *at)
}

fn show_find(
    to: &impl Print,
    device: &[u8],
    maps: &[u32],
    owners: &[u8],
    session: Session,
) -> io::Result<()> {
    let found = reading::find(device, maps, owners, session, 0, 5).len();
    println!(to; "find block 5 of volume 0: a part of {found} bytes")
}

fn show_release(
    to: &impl Print,
    device: &mut [u8],
    maps: &mut [u32],
    owners: &mut [u8],
    perm: &[u32],
    tape: &[u8],
    at: &mut usize,
    session: Session,
    volume: usize,
) -> io::Result<()> {
    print!(to; "release logical slice 1 of volume {volume}: ")?;
    let r = lending::release_at(device, maps, owners, perm, tape, at, session, volume, 1);
    say_release(to, r.answer, r.session.start, *at)
}

fn show_close(
    to: &impl Print,
    device: &[u8],
    maps: &mut [u32],
    owners: &mut [u8],
    session: Session,
) -> io::Result<Session> {
    print!(to; "close: ")?;
    let r = closing::close(device, maps, owners, session);
    say_answer(to, r.answer)?;
    println!(to)?;
    Ok(r.session)
}

// ---- the sessions: each has tables of its own, so that nothing but the device tells it what those before it did

// Session n with key 1: block 5 of a volume is read, and then written; from session 3 on its logical slice is released instead. The session
// is dropped without a close.
fn show_session(
    to: &impl Print,
    device: &mut [u8],
    perm: &[u32],
    tape: &[u8],
    at: &mut usize,
    volume: usize,
    n: usize,
) -> io::Result<()> {
    let mut maps = [0u32; 60];
    let mut owners = [0u8; 4];
    let session = show_open(to, device, 1, &mut maps, &mut owners, perm)?;
    show_read(to, device, &maps, &owners, session, volume, 5)?;
    if n < 3 {
        show_write(
            to,
            device,
            &mut maps,
            &mut owners,
            perm,
            tape,
            at,
            session,
            volume,
            n,
        )
    } else {
        show_release(
            to,
            device,
            &mut maps,
            &mut owners,
            perm,
            tape,
            at,
            session,
            volume,
        )
    }
}

// A claim, a rewrite, a claim for volume 0, which is open too, a release, and one that is refused, since there is no slice.
fn show_sessions(
    to: &impl Print,
    device: &mut [u8],
    perm: &[u32],
    tape: &[u8],
    at: &mut usize,
) -> io::Result<()> {
    let volumes = [1usize, 1, 0, 1, 1];
    for (n, volume) in volumes.iter().enumerate() {
        show_session(to, device, perm, tape, at, *volume, n)?;
    }
    Ok(())
}

// A session that is closed, and refuses what comes after. Volume 1 has 8 blocks, so that block 8 is past its end.
fn show_closing(to: &impl Print, device: &[u8], perm: &[u32]) -> io::Result<()> {
    let mut maps = [0u32; 60];
    let mut owners = [0u8; 4];
    let session = show_open(to, device, 1, &mut maps, &mut owners, perm)?;
    show_read(to, device, &maps, &owners, session, 1, 8)?;
    let closed = show_close(to, device, &mut maps, &mut owners, session)?;
    show_read(to, device, &maps, &owners, closed, 1, 5)
}

// With key 0: volume 0 as it was left, and no volume 1. With a key that opens nothing.
fn show_others(to: &impl Print, device: &[u8], perm: &[u32]) -> io::Result<()> {
    let mut maps = [0u32; 60];
    let mut owners = [0u8; 4];
    let session = show_open(to, device, 0, &mut maps, &mut owners, perm)?;
    show_read(to, device, &maps, &owners, session, 0, 5)?;
    show_find(to, device, &maps, &owners, session)?;
    show_read(to, device, &maps, &owners, session, 1, 5)?;
    show_open(to, device, 2, &mut maps, &mut owners, perm)?;
    Ok(())
}

fn show(to: &impl Print, device: &mut [u8], tape: &[u8]) -> io::Result<()> {
    let mut perm = [0u32; 4];
    let mut at: usize = 0;
    show_making(to, device, tape, &mut at)?;
    show_drawing(to, &mut perm, tape, &mut at)?;
    show_sessions(to, device, &perm, tape, &mut at)?;
    show_closing(to, device, &perm)?;
    show_others(to, device, &perm)
}

fn main(rt: HostRuntime) -> io::Result<()> {
    let mut device = [0u8; 52224];
    let mut tape = [0u8; 55296];
    fill(&mut tape);
    show(&rt, &mut device, &tape)
}

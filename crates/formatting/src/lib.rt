// Formatting a blank device: it is filled from the tape, then gets its key cells, headers and empty maps.
//
// `format` is the public call: any arguments, the tape position lent as one record. It tests all refusals, draws once, and carries out
// (`making::carry_out`). What the device held before is never read.
#![tactic(auto)]

ghost use Rattle.std.specs.Prelude.{◌≡◌, ◌*◌, ◌≤◌, length};
ghost use Rattle.refusals.specs.Numbers.{answer_number};
ghost use Rattle.model.specs.Parts.{part};
ghost use Rattle.model.specs.Geometry.{Allowed, cell_of};
ghost use Rattle.model.specs.Format.{format_need, made_cell, lower_opens, format_refusal, lower_refusal, format_model};
ghost use Rattle.model.specs.Answers.{LentLeaves};
ghost use Rattle.making.specs.Drawn.{Makes};

use model::{Geometry, TapePosition};
use refusals::Refusal;

// ---- refusals

// The tape bytes of a formatting with n keys.
fn tape_need(g: Geometry, n: usize) -> usize
    requires { Allowed g × (n ≤ 15) }
    ensures { result ≡ format_need g n }
{
    places::device_length(g) + n * (88 + 16 * places::map_blocks(g))
}

// Whether one of the first n keys opens a cell below its own.
fn any_lower(cells: &[u8], keys: &[u8], n: usize) -> bool
    requires { (916 ≤ length cells.now) × (n ≤ 15) × (length keys.now ≡ 32 * n) }
    ensures { result ≡ lower_opens keys.now (cell_of cells.now) n }
{
    let mut vmk = [0u8; 32];
    for i in 0..n {
        let key = places::key_in(keys, i);
        let found = sealing::first_cell(cells, key, i, &mut vmk);
        if found.is_some() {
            return true;
        }
    }
    false
}

// The same of the cells as they will stand, which are sealed beside the device.
fn lower_opens(g: Geometry, n: usize, keys: &[u8], drawn: &[u8]) -> bool
    requires { Makes g n (length keys.now) (length drawn.now) }
    ensures { result ≡ lower_opens keys.now (made_cell g n keys.now drawn.now) n }
{
    let mut cells = [0u8; 916];
    making::seal_cells(&mut cells, g, n, keys, drawn);
    any_lower(&cells, keys, n)
}

// 1, 2, 23, 3 and 21, from the counts and the lengths of device, keys and tape.
fn lengths_refusal(
    device: usize,
    g: Geometry,
    n: usize,
    keys: usize,
    counts: &[usize],
    tape: usize,
    position: usize,
) -> Result<(), Refusal>
    ensures { answer_number result ≡ format_refusal device g n keys counts.now tape position 0 }
{
    places::check_geometry(Refusal::BadGeometry, g)?;
    if counts.len() != n {
        return Err(Refusal::BadGeometry);
    }
    if places::any_bad_count(counts, g.p, n) {
        return Err(Refusal::BadGeometry);
    }
    if device != places::device_length(g) {
        return Err(Refusal::DeviceLength);
    }
    if n < 1 {
        return Err(Refusal::KeyCount);
    }
    if 15 < n {
        return Err(Refusal::KeyCount);
    }
    if keys != 32 * n {
        return Err(Refusal::KeyLength);
    }
    if tape::is_short(tape, position, tape_need(g, n)) {
        return Err(Refusal::TapeShort);
    }
    Ok(())
}

// All refusals of a formatting.
fn format_refusal(
    device: usize,
    g: Geometry,
    n: usize,
    keys: &[u8],
    counts: &[usize],
    tape: &[u8],
    position: usize,
) -> Result<(), Refusal>
    ensures { answer_number result ≡ format_refusal device g n (length keys.now) counts.now (length tape.now) position
        (lower_refusal g n keys.now (part position (format_need g n) tape.now)) }
{
    lengths_refusal(device, g, n, keys.len(), counts, tape.len(), position)?;
    let drawn = making::bytes_at(tape, position, tape_need(g, n));
    if lower_opens(g, n, keys, drawn) {
        return Err(Refusal::LowerCell);
    }
    Ok(())
}

// ---- the call

// Formatting with a number of volumes: their keys, which stand end to end, and a count of logical slices for each (document 02, P4), the
// tape position lent as a record: one draw for all.
pub fn format(
    device: &mut [u8],
    g: Geometry,
    volumes: usize,
    keys: &[u8],
    counts: &[usize],
    tape: &[u8],
    position: &mut TapePosition,
) -> Result<(), Refusal>
    ensures { LentLeaves (format_model (length device.old) g volumes keys.now counts.now tape.now
        position.old.at) device.old position.old.at (answer_number result) device.new
        position.new.at }
{
    format_refusal(device.len(), g, volumes, keys, counts, tape, position.at)?;
    let drawn = tape::draw(tape, position, tape_need(g, volumes));
    making::carry_out(device, g, volumes, keys, counts, drawn, Ok(()))
}

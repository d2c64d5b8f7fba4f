// The exchanges of a shuffle (document 02, P6): a list, and for each of its places from the last down to place 1 a draw from the tape.
#![tactic(auto)]

ghost use Rattle.std.specs.Prelude.{◌≡◌, List, ℕ, ◌+◌, ◌-◌, ◌*◌, ◌%◌, ◌≤◌, ◌<◌, length, get_or, drop, ltb};
ghost use Rattle.std.specs.Result.{result_unwrap_or};
ghost use Rattle.refusals.specs.Numbers.{answer_number, unless_refused};
ghost use Rattle.model.specs.Parts.{choose};
ghost use Rattle.model.specs.Shuffle.{exchanged, limit, run, draws, shuffled};
ghost use Rattle.ordering.specs.Made.{Makes};

use refusals::Refusal;

// A draw: two bytes of the tape, most significant first (document 02, P6).
fn draw_at(tape: &[u8], at: usize) -> usize
    requires { at + 2 ≤ length tape.now }
    ensures { (result ≡ 256 * get_or tape.now at 0 + get_or tape.now (at + 1) 0) × (result < 65536) }
{
    usize::from(u16::from_be_bytes([tape[at], tape[at + 1]]))
}

// One draw for a place, which has n choices: it is exchanged with the drawn one and the place below is next, or the draw is thrown away and
// the place stays (document 02, P6). `draw - chosen` is a multiple of n, and a draw is below the limit where the next multiple is not above
// 65,536: one division for both.
fn turn(list: &mut [u32], place: usize, draw: usize) -> usize
    requires { (0 < place) × (place < length list.old) × (length list.old ≤ 4096) × (draw < 65536) }
    ensures { (result ≡ choose (ltb draw (limit (place + 1))) (place - 1) place)
        × (list.new
        ≡ choose (ltb draw (limit (place + 1))) (exchanged place (draw % (place + 1)) list.old) list.old) }
{
    let n = place + 1;
    let chosen = draw % n;
    if 65536 < draw - chosen + n {
        return place;
    }
    list.swap(place, chosen);
    place - 1
}

// The places of a list from the last down to place 1, each exchanged with one that is drawn for it from the tape bytes from a position on
// (document 02, P6); how many bytes of the tape it used. Where these end first, what the list then holds is of no use.
pub fn order(list: &mut [u32], tape: &[u8], position: usize) -> Result<usize, Refusal>
    requires { (1 ≤ length list.old) × (length list.old ≤ 4096) × (position ≤ length tape.now) }
    ensures { (old : List ℕ) → Makes (shuffled (length list.old - 1) list.old position
        (run (length list.old - 1) (draws (drop position tape.now)))) old (length tape.now) position
        (answer_number result) (unless_refused (answer_number result) list.new old) (result_unwrap_or result 0) }
{
    let mut place = list.len() - 1;
    let mut at = position;
    // No `for` over the places: the loop takes a draw in each turn, and one that is thrown away leaves the place as it is.
    while 0 < place {
        if tape.len() - at < 2 {
            return Err(Refusal::TapeShort);
        }
        place = turn(list, place, draw_at(tape, at));
        at += 2;
    }
    Ok(at - position)
}

// The tape of random bytes and its position (document 01 calls it the tape mark): one small record that the caller lends
// and every draw moves on.
//
// `draw` is the one function that moves it.
#![tactic(auto)]

ghost use Rattle.std.specs.Prelude.{◌≡◌};
ghost use Rattle.model.specs.Session.{short};
ghost use Rattle.tape.specs.Draw.{drawn, past};

use model::TapePosition;

// Whether the position is past the end of a tape, or fewer bytes are left than needed; compared by subtraction.
#[tactic(auto, using(std::proofs::lemmas::Bool::Decides::nat_tests), unfolding(model::specs::Session::short))]
pub fn is_short(tape: usize, position: usize, need: usize) -> bool
    ensures { result ≡ short tape position need }
{
    tape < position || tape - position < need
}

// The next n bytes of the tape, and the position moves past them; nothing, and it stays, where fewer are left.
#[tactic(auto, using(std::proofs::lemmas::Bool::Decides::nat_tests, model::proofs::Requests::short_false))]
pub fn draw<'a>(tape: &'a [u8], position: &mut TapePosition, n: usize) -> &'a [u8]
    ensures { (result.now ≡ drawn tape.now position.old.at n)
        × (position.new.at ≡ past tape.now position.old.at n) }
{
    let from = position.at;
    if is_short(tape.len(), from, n) {
        return &[];
    }
    let end = from + n;
    position.at = end;
    &tape[from..end]
}

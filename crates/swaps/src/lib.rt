// The laws of rotations and delta swaps, bit by bit.
#![tactic(auto)]

ghost use Rattle.swaps.specs.Swaps.{SwapLaws};

// What delta swaps and rotations do to each bit: nothing runs, and the check has to prove it.
pub fn swap_laws()
    ensures { SwapLaws }
{}

// What is proved of shuffles (document 02, P6) beyond point 1, as theorems about the model. Each function here runs nothing; its
// `ensures` is the statement that the check has to prove.
#![tactic(auto)]

ghost use Rattle.std.specs.Prelude.{ℕ};
ghost use Rattle.evenness.specs.Orders.{ShuffledOrders};
ghost use Rattle.evenness.specs.Evenness.{Evenness};

// What a shuffle leaves names each slice once, and no call refuses it by 5; it is the ordering of the draws that were accepted, and
// every run of accepted draws is that of a tape.
pub fn shuffled_orders()
    ensures { ShuffledOrders }
{}

// Each ordering arises from equally many runs of accepted draws, whatever P.
pub fn each_ordering()
    ensures { (p : ℕ) → Evenness p }
{}

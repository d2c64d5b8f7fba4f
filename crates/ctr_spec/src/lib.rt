// Counter mode under AES-256 (SP 800-38A, section 6.5): its definitions and their laws, without code, for whoever uses it by its laws alone.
#![tactic(auto)]

ghost use Rattle.ctr_spec.specs.Theorems.{CtrLaws};

// The laws of counter mode: nothing runs, and the check has to prove them.
pub fn ctr_laws()
    ensures { CtrLaws }
{}

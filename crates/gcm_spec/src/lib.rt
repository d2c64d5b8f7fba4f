// GCM under AES-256 (SP 800-38D): its definitions and their laws, without code, for whoever uses it by its laws alone.
#![tactic(auto)]

ghost use Rattle.gcm_spec.specs.Theorems.{GcmLaws};

// The laws of GCM: nothing runs, and the check has to prove them.
pub fn gcm_laws()
    ensures { GcmLaws }
{}

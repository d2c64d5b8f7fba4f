// The types that the engine's calls speak of. What each call answers and leaves stands in specs/, in the order of
// documents 01 and 02; nothing here runs.
#![tactic(auto)]

ghost use Rattle.model.specs.Theorems.{LayoutLaws, SealingLaws, AnswerLaws, ModelLaws};
ghost use Rattle.model.specs.Bench.{cases, AllHold};

use refusals::Refusal;

// The geometry of a device (document 01, "Geometry of a stick"): b is B, the bytes in a block; s is S, the data blocks in
// a slice; p is P, the physical slices.
#[derive(Clone, Copy)]
pub struct Geometry {
    pub b: usize,
    pub s: usize,
    pub p: usize,
}

// A session, handed in and back: its geometry, the opened volume k, 15 data keys of 32 bytes end to end, open or closed,
// the start place, where a claim begins to look (document 02, P2), and 15 counts, N of each volume: its logical slices
// (document 02, P4).
#[derive(Clone, Copy)]
pub struct Session {
    pub geometry: Geometry,
    pub k: usize,
    pub keys: [u8; 480],
    pub opened: bool,
    pub start: usize,
    pub counts: [usize; 15],
}

// The position of the next unused tape byte (document 01 calls it the tape mark).
#[derive(Clone, Copy)]
pub struct TapePosition {
    pub at: usize,
}

// How a served write changed the device: the slice that it claimed or rewrote.
#[derive(Clone, Copy)]
pub enum Change {
    Claimed(usize),
    Rewritten(usize),
}

// The answer of a write, with the number of places looked at: document 01 names this form, a served case that wraps claimed or rewritten beside
// the refusal case.
#[derive(Clone, Copy)]
pub enum WriteAnswer {
    Served { change: Change, probes: usize },
    Refused { refusal: Refusal, probes: usize },
}

// What an opening hands back: the opened volume k, or the refusal; and the session.
#[derive(Clone, Copy)]
pub struct Opening {
    pub answer: Result<usize, Refusal>,
    pub session: Session,
}

// What a write hands back.
#[derive(Clone, Copy)]
pub struct Written {
    pub answer: WriteAnswer,
    pub session: Session,
}

// What a release hands back: the slice freed, or the refusal (document 02, P5); and the session.
#[derive(Clone, Copy)]
pub struct Released {
    pub answer: Result<usize, Refusal>,
    pub session: Session,
}

// What a read or a close hands back.
#[derive(Clone, Copy)]
pub struct Reply {
    pub answer: Result<(), Refusal>,
    pub session: Session,
}

// What a search finds: the first place of the permutation, from a start on, whose slice is free, a place that names no slice
// before it, or neither.
#[derive(Clone, Copy)]
pub enum Search {
    Free { slice: usize, place: usize },
    Bad(usize),
    Full,
}

// The laws of the definitions: nothing runs, and the check has to prove them. Things stand end to end; what is sealed opens;
// contracts drop nothing of an answer; what calls find, write and leave.
pub fn layout_laws()
    ensures { LayoutLaws }
{}

pub fn sealing_laws()
    ensures { SealingLaws }
{}

pub fn answer_laws()
    ensures { AnswerLaws }
{}

pub fn model_laws()
    ensures { ModelLaws }
{}

// The bench cases of document 01, the starred ones and more, as document 02 has them, with the limits of a formatting.
pub fn bench_cases()
    ensures { AllHold cases }
{}

// The answers of a write and a release as the C functions hand them over (include/hiwalgam.h): the struct of a write's answer and its
// number, and the slice that a release freed. What a formatting and a shuffle hand over is a definition alone (`LentHanded`), with its laws.
#![tactic(auto)]

ghost use Rattle.std.specs.Prelude.{◌≡◌, length};
ghost use Rattle.model.specs.Answers.{change_slice, write_result, release_result};
ghost use Rattle.replies.specs.Answers.{write_number, freed_slice};
ghost use Rattle.replies.specs.Written.{change_claimed, written_bytes};
ghost use Rattle.replies.specs.Theorems.{ReplyLaws};

use model::{Change, WriteAnswer};
use refusals::Refusal;

// ---- the answer of a write

fn change_claimed(change: Change) -> bool
    ensures { result ≡ change_claimed change }
{
    matches!(change, Change::Claimed(_))
}

fn change_slice(change: Change) -> usize
    ensures { result ≡ change_slice change }
{
    match change {
        Change::Claimed(slice) | Change::Rewritten(slice) => slice,
    }
}

// The answer of a write into its struct.
pub fn put_written(r: &mut [u8], answer: WriteAnswer)
    requires { length r.old ≡ 24 }
    ensures { r.new ≡ written_bytes (write_result answer) }
{
    match answer {
        WriteAnswer::Served { change, probes } => {
            let claimed = usize::from(change_claimed(change));
            records::put_three(r, 0, claimed, change_slice(change), probes);
        }
        WriteAnswer::Refused { probes, .. } => records::put_three(r, 0, 0, 0, probes),
    }
}

// The number of a write's answer. Those of an opening and a release are `refusals::answer_number`.
pub fn write_number(answer: WriteAnswer) -> u8
    ensures { result ≡ write_number (write_result answer) }
{
    match answer {
        WriteAnswer::Served { .. } => 0,
        WriteAnswer::Refused { refusal, .. } => u8::from(refusal),
    }
}

// ---- the slice that a release freed

pub fn put_freed(slice: &mut usize, answer: Result<usize, Refusal>)
    ensures { slice.new ≡ freed_slice (release_result answer) slice.old }
{
    if let Ok(freed) = answer {
        *slice = freed;
    }
}

// ---- laws

// What a C program finds where an answer was handed over. Nothing runs, and the check has to prove it.
pub fn reply_laws()
    ensures { ReplyLaws }
{}

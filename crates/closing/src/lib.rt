// Close: everything held is wiped. No byte of the device is written, since claims and releases are on it already.
//
// `close` is a public call: any arguments. It sees no tape, and of the device it takes the length alone.
#![tactic(auto)]

ghost use Rattle.std.specs.Prelude.{◌≡◌, ℕ, length};
ghost use Rattle.model.specs.Session.{held};
ghost use Rattle.model.specs.Close.{CloseResult, closed_session, close_model};
ghost use Rattle.model.specs.Answers.{close_result, Leaves};

use model::{Reply, Session};

// The session after a close: closed, its keys 0, geometry, k, start place and counts as they were.
fn closed_session(session: Session) -> Session
    ensures { result ≡ closed_session session }
{
    Session {
        keys: [0u8; 480],
        opened: false,
        ..session
    }
}

// Close: every entry the mark, every owner 0, and the session closed. The contract holds for every tape position, since a close
// neither sees nor moves it.
pub fn close(device: &[u8], maps: &mut [u32], owners: &mut [u8], session: Session) -> Reply
    ensures { (position : ℕ) → Leaves CloseResult
        (close_model (length device.now) (held maps.old owners.old position session))
        device.now (close_result result.answer) device.now maps.new owners.new position result.session }
{
    // No `?`: the session is handed back beside the answer (document 01).
    let standing = requests::check_standing(device.len(), maps.len(), owners.len(), session);
    if let Err(refusal) = standing {
        return Reply {
            answer: Err(refusal),
            session,
        };
    }
    tables::unmap(maps);
    owners.fill(0);
    Reply {
        answer: Ok(()),
        session: closed_session(session),
    }
}

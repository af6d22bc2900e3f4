//! How far the inverses of a log came.

ghost use Rattle.std.specs.Prelude.{◌≡◌, ◌<◌, [], length, MatchOption, IfSome, IsOk};
ghost use Rattle.of_wire.specs.Reading.{reading_of};
ghost use Rattle.net_txn.specs.Undos.{progress_of, inverses_in, keys_in, IsProgressAt};
ghost use Rattle.lego_model.specs.UndoFaults.{key_sent, key_refused};

use crate::logged::{Logged, UndoProgress};
use of_match::Key;
use of_types::{Dpid, Xid, get_u8, get_u32, kinds};

/// Tells how the newest inverse that was sent to a switch stands.
pub(crate) fn progress_of(reverted: &[Logged], dpid: Dpid) -> UndoProgress
    ensures { result ≡ progress_of dpid reverted.now }
{
    for entry in reverted {
        if entry.dpid == dpid {
            return entry.progress;
        }
    }
    UndoProgress {
        xid: 0,
        since: 0,
        failed: false,
        lost: false,
    }
}

/// Returns the key whose inverse was sent to a switch with this transaction id.
fn key_sent(reverted: &[Logged], dpid: Dpid, xid: Xid) -> Option<Key>
    ensures { result ≡ key_sent xid (inverses_in dpid reverted.now) }
{
    for entry in reverted {
        if entry.dpid == dpid && entry.progress.xid == xid {
            return Some(entry.key);
        }
    }
    None
}

/// Returns the key whose inverse a message of the switch refuses.
#[tactic(auto, unfolding(lego_model::specs::UndoFaults::key_refused), using(crate::specs::laws::SizeLaws::sizes))]
pub(crate) fn key_refused(message: &[u8], reverted: &[Logged], dpid: Dpid) -> Option<Key>
    requires { IsOk (reading_of message.now) }
    ensures { result ≡ key_refused (inverses_in dpid reverted.now) message.now }
{
    if get_u8(message, 1) == kinds::ERROR {
        key_sent(reverted, dpid, get_u32(message, 4))
    } else {
        None
    }
}

/// Tells where the newest inverse stands that was sent to a switch.
pub(crate) fn position_of(reverted: &[Logged], dpid: Dpid) -> Option<usize>
    ensures place { MatchOption result (keys_in dpid reverted.now ≡ []) (IsProgressAt dpid reverted.now) }
    ensures within { IfSome result (λ at. at < length reverted.now) }
{
    for (i, entry) in reverted.iter().enumerate() {
        if entry.dpid == dpid {
            return Some(i);
        }
    }
    None
}

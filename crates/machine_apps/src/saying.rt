//! What applications say, as frames and as bytes.

ghost use Rattle.std.specs.Prelude.{◌≡◌, ◌≤◌, ◌++◌, [], Some, true, false, IsTrue, IfOk, OnOk};
ghost use Rattle.std.specs.List.{list_all};
ghost use Rattle.app_objects.specs.ByEvents.{app_fits, says, frame_in};
ghost use Rattle.app_frames.specs.Frames.{AppFits};
ghost use Rattle.app_frames.specs.Spelling.{app_bytes};
ghost use Rattle.of_wire.specs.Spelling.{message_size};
ghost use Rattle.machine_apps.specs.Learn.{told};

use app_frames::{
    AppFrame, AppFrameError, HostFrame, MOST_CHECKPOINT_BYTES, decode_host, encode_app,
};
use app_objects::Step;
use of_types::{ByteList, Dpid, Xid};
use of_wire::{Message, encode};
use std::alloc::{AllocError, Global};

/// The `xid` of all messages.
const XID: Xid = 0;

/// The frame that stands at the front of some bytes, if one does.
#[tactic(auto, unfolding(app_objects::specs::ByEvents::frame_in))]
pub(crate) fn host_frame(alloc: Global, bytes: &[u8]) -> Result<Option<HostFrame>, AllocError>
    ensures { IfOk result (λ frame. frame ≡ frame_in bytes.now) }
{
    match decode_host(alloc, bytes) {
        Ok(Some((frame, _))) => Ok(Some(frame)),
        Ok(None) | Err(AppFrameError::Refused(_)) => Ok(None),
        Err(AppFrameError::NoMemory) => Err(AllocError),
    }
}

/// Whether the frame has a length that a frame may have.
#[tactic(auto, unfolding(app_objects::specs::ByEvents::app_fits))]
fn fits(frame: &AppFrame) -> bool
    ensures { result ≡ app_fits frame.now }
{
    match frame {
        AppFrame::Message(_, bytes) => 8 <= bytes.len() && bytes.len() <= 65_535,
        AppFrame::Done {
            checkpoint: Some(checkpoint),
            ..
        } => checkpoint.len() <= MOST_CHECKPOINT_BYTES,
        _ => true,
    }
}

/// Whether each frame has.
fn all_fit(frames: &[AppFrame]) -> bool
    ensures { result ≡ list_all app_fits frames.now }
{
    frames.iter().all(fits)
}

/// Writes the frame at the end of `out`.
#[tactic(auto, using(app_objects::specs::laws::ResumingLaws::fits_by))]
fn say(alloc: Global, frame: &AppFrame, out: &mut Vec<u8>) -> Result<(), AllocError>
    requires { app_fits frame.now ≡ true }
    ensures { OnOk result (out.new.items ≡ out.old.items ++ app_bytes frame.now) }
{
    out.extend_from_slice(encode_app(alloc, frame)?.as_slice())?;
    Ok(())
}

/// Writes all frames at the end of `out`. Where one is too long, none is written, and the object has died.
#[tactic(auto, unfolding(app_objects::specs::ByEvents::says))]
pub(crate) fn say_all(
    alloc: Global,
    frames: &[AppFrame],
    out: &mut Vec<u8>,
) -> Result<Step, AllocError>
    ensures { IfOk result (λ step. (out.new.items ≡ out.old.items ++ (says frames.now).bytes) × (step ≡ (says frames.now).step)) }
{
    if !all_fit(frames) {
        return Ok(Step::Died);
    }
    for frame in frames {
        say(alloc, frame, out)?;
    }
    Ok(Step::Alive)
}

/// The frame of a message for the switch.
pub(crate) fn told(alloc: Global, dpid: Dpid, message: &Message) -> Result<AppFrame, AllocError>
    requires { message_size message.now ≤ 65535 }
    ensures { IfOk result (λ frame. frame ≡ told dpid message.now) }
{
    Ok(AppFrame::Message(dpid, encode(alloc, XID, message)?))
}

/// Done with an empty checkpoint, and the event goes on to the next application.
pub(crate) fn done_keeping_nothing(alloc: Global) -> AppFrame
    ensures { result ≡ AppFrame.Done false (Some []) }
{
    AppFrame::Done {
        stop: false,
        checkpoint: Some(ByteList::new(alloc)),
    }
}

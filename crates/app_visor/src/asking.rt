//! One message of an application, and its answer.

ghost use Rattle.std.specs.Prelude.{◌≡◌, IfOk, IfErr, OnErr};
ghost use Rattle.app_frames.specs.declared.frame.HostFrame.TheVariants as host;
ghost use Rattle.app_frames.specs.Frames.{HostFits};
ghost use Rattle.lego_model.specs.Controller.{answer_frame, event_frame};
ghost use Rattle.lego_model.specs.AtOnce.{Before};
ghost use Rattle.net_txn.specs.Causes.{IsPlain};
ghost use Rattle.app_visor.specs.Dialogues.{LeadsOn};
ghost use Rattle.app_visor.specs.Beats.{Exchanges, Stops};
ghost use Rattle.app_visor.specs.CallsFor.{Calmly};

use crate::talk::give;
use app_frames::{Answer, Event, HostFrame, encode_host};
use net_txn::{Txn, TxnFault};
use of_types::{ByteList, Dpid};
use outside::World;
use std::alloc::{AllocError, Global};

/// Returns the bytes of an answer.
fn encode_answer(alloc: Global, answer: Answer) -> Result<ByteList, AllocError>
    requires { HostFits (host.Answer answer) }
    ensures { IfOk result (λ frame. frame ≡ answer_frame answer) }
{
    encode_host(alloc, &HostFrame::Answer(answer))
}

/// Returns the bytes of an event.
pub(crate) fn encode_event(
    alloc: Global,
    number: u64,
    moment: u64,
    event: &Event,
) -> Result<ByteList, AllocError>
    requires { HostFits (host.Event number moment event.now) }
    ensures { IfOk result (λ frame. frame ≡ event_frame number moment event.now) }
{
    let event = event.clone()?;
    encode_host(
        alloc,
        &HostFrame::Event {
            number,
            moment,
            event,
        },
    )
}

/// Has a message of the application answered, and gives it the answer; says whether it could be given it.
pub(crate) fn exchange<W: World>(
    alloc: Global,
    world: &mut W,
    txn: &mut Txn<'_>,
    app: u32,
    dpid: Dpid,
    bytes: &[u8],
) -> Result<bool, TxnFault>
    ensures same_reference { txn.new.net.ghost_name ≡ txn.old.net.ghost_name }
    ensures start { txn.new.start ≡ txn.old.start }
    ensures ok { IfOk result (λ given. Exchanges W.Tells app dpid bytes.now given (W.seen world.old) (W.seen world.new) txn.old.net.now txn.new.net.now) }
    ensures err { IfErr result (λ fault. Stops W.Tells app (W.seen world.old) (W.seen world.new) txn.old.net.now txn.new.net.now fault) }
    ensures talks { OnErr result (W.Tells → (s : Before) → LeadsOn app s (W.seen world.old) (W.seen world.new)) }
    ensures calm { W.Tells → Calmly app (W.seen world.old) (W.seen world.new) }
    ensures parted { W.CanPart → IfErr result IsPlain }
{
    let answer = txn.change(world, dpid, bytes)?;
    let frame = encode_answer(alloc, answer)?;
    Ok(give(world, app, frame.as_slice())?)
}

//! Starts of an application that failed or was not started yet.

ghost use Rattle.std.specs.Prelude.{◌≡◌, ℕ, ◌<◌, ◌≤◌, false, List, [], length, Some, None, if◌then◌else◌, OnErr, IfOk};
ghost use Rattle.lego_model.specs.Controller.{restore_frame, is_ready as ready};
ghost use Rattle.outside.specs.Seen.{Continues};
ghost use Rattle.of_types.specs.declared.journal.Act.TheVariants.{Started};
ghost use Rattle.lego_model.specs.AtOnce.{Before, nothing_said};
ghost use Rattle.outside.specs.State.{state, is_running};
ghost use Rattle.app_visor.specs.Talks.{Told, Wants};
ghost use Rattle.app_visor.specs.Dialogues.{LeadsOn, TalksOn, Talks};
ghost use Rattle.app_visor.specs.Attempts.{kept_of, tried_by, rest_of, Greets, EndsUnless, Tries, Restarts};
ghost use Rattle.app_visor.specs.CallsFor.{OwnSteps};

use crate::came::Came;
use crate::intake::{Intake, TakeBuffer};
use crate::state::{AppState, Back};
use crate::talk::{give, next_frame};
use app_frames::{AppFrame, HostFrame, Tried, encode_host};
use checkpoint_store::Store;
use of_types::ByteList;
use outside::{StartFault, World};
use std::alloc::{AllocError, Global};

/// How many attempts there are at most to start an application that failed or was not started yet.
pub const ATTEMPTS: u32 = 3;

/// Tells whether the application has started.
fn is_ready(tried: Tried) -> bool
    ensures { result ≡ ready tried }
{
    match tried {
        Tried::Ready => true,
        _ => false,
    }
}

/// Tells how a start ends by what comes first.
fn tried_by(came: Came) -> Tried
    ensures { result ≡ tried_by came }
{
    match came {
        Came::Frame(AppFrame::Ready) => Tried::Ready,
        Came::Frame(_) | Came::Refused(_) => Tried::Garbled,
        Came::Closed => Tried::Closed,
        Came::Silent => Tried::Silent,
    }
}

/// Starts the application, and answers whether it stands.
fn start<W: World>(world: &mut W, app: u32, words: &[String]) -> Result<bool, AllocError>
    ensures ok { IfOk result (λ stands. Told W.Tells (Started app stands) (W.seen world.old) (W.seen world.new)) }
    ensures err { OnErr result (Wants W.Tells (W.seen world.old) (W.seen world.new)) }
    ensures continues { Continues W.Tells (W.seen world.old) (W.seen world.new) }
{
    match world.start(app, words) {
        Ok(()) => Ok(true),
        Err(StartFault::NotStarted) => Ok(false),
        Err(StartFault::Short) => Err(AllocError),
    }
}

/// Ends the application where its start did not end by its being ready.
fn end_unless_ready<W: World>(world: &mut W, app: u32, tried: Tried)
    ensures { EndsUnless W.Tells app (ready tried) (W.seen world.old) (W.seen world.new) }
{
    if !is_ready(tried) {
        world.end(app);
    }
}

/// Gives the application that was started its kept checkpoint, and awaits its first frame.
fn greet<W: World>(
    alloc: Global,
    world: &mut W,
    app: u32,
    frame: &[u8],
    intake: &mut Intake,
) -> Result<Tried, AllocError>
    ghost kept: { List ℕ }
    requires frame { frame.now ≡ restore_frame kept }
    requires intake { intake.old ≡ [] }
    ensures ok { IfOk result (λ tried. Greets W.Tells app kept tried intake.new (W.seen world.old) (W.seen world.new)) }
    ensures talks { OnErr result (W.Tells → LeadsOn app nothing_said (W.seen world.old) (W.seen world.new)) }
    ensures own { W.Tells → OwnSteps app (W.seen world.old) (W.seen world.new) }
    ensures continues { Continues W.Tells (W.seen world.old) (W.seen world.new) }
{
    if !give(world, app, frame)? {
        return Ok(Tried::Closed);
    }
    Ok(tried_by(next_frame(alloc, world, app, intake)?))
}

/// Tells what is unread behind the frame Ready, and nothing where there is none.
fn rest_by(alloc: Global, tried: Tried, intake: &Intake) -> Result<ByteList, AllocError>
    ensures { IfOk result (λ rest. rest ≡ rest_of tried intake.now) }
{
    if is_ready(tried) {
        intake.rest(alloc)
    } else {
        Ok(ByteList::new(alloc))
    }
}

/// Attempts once to start an application; ends it where it runs, and where it is not ready. Answers how that ended,
/// and the bytes behind the frame Ready.
fn attempt<W: World>(
    alloc: Global,
    world: &mut W,
    app: u32,
    words: &[String],
    frame: &[u8],
    buffer: &mut TakeBuffer,
) -> Result<(Tried, ByteList), AllocError>
    ghost kept: { List ℕ }
    requires { frame.now ≡ restore_frame kept }
    ensures ok { IfOk result (λ r. Tries W.Tells app kept r.0 r.1 (W.seen world.old) (W.seen world.new)) }
    ensures talks { OnErr result (TalksOn W.Tells app (W.seen world.old) (W.seen world.new)) }
    ensures own { W.Tells → OwnSteps app (W.seen world.old) (W.seen world.new) }
    ensures continues { Continues W.Tells (W.seen world.old) (W.seen world.new) }
{
    let mut intake = buffer.take(alloc, &[])?;
    world.end(app);
    if !start(world, app, words)? {
        buffer.keep(intake);
        return Ok((Tried::Refused, ByteList::new(alloc)));
    }
    let tried = greet(alloc, world, app, frame, &mut intake)?;
    let rest = rest_by(alloc, tried, &intake)?;
    end_unless_ready(world, app, tried);
    buffer.keep(intake);
    Ok((tried, rest))
}

/// Attempts to start the application until it is ready, and appends how each attempt ended; answers what is unread behind
/// the frame Ready.
fn try_all<W: World>(
    alloc: Global,
    world: &mut W,
    app: u32,
    words: &[String],
    frame: &[u8],
    buffer: &mut TakeBuffer,
    tries: &mut Vec<Tried>,
) -> Result<Option<ByteList>, AllocError>
    ghost kept: { List ℕ }
    requires frame { frame.now ≡ restore_frame kept }
    requires none { tries.old.items ≡ [] }
    ensures ok { IfOk result (λ found. Restarts W.Tells app kept (W.seen world.old) (W.seen world.new) found tries.new.items) }
    ensures talks { OnErr result (TalksOn W.Tells app (W.seen world.old) (W.seen world.new)) }
    ensures own { W.Tells → OwnSteps app (W.seen world.old) (W.seen world.new) }
    ensures continues { Continues W.Tells (W.seen world.old) (W.seen world.new) }
{
    for _attempt in 0..ATTEMPTS {
        let (tried, rest) = attempt(alloc, world, app, words, frame, buffer)?;
        tries.push(tried)?;
        if is_ready(tried) {
            return Ok(Some(rest));
        }
    }
    Ok(None)
}

/// Returns the bytes of Restore with a checkpoint.
fn encode_restore(alloc: Global, checkpoint: &[u8]) -> Result<ByteList, AllocError>
    requires { length checkpoint.now ≤ 1048576 }
    ensures { IfOk result (λ frame. frame ≡ restore_frame checkpoint.now) }
{
    let checkpoint = ByteList::from_slice(alloc, checkpoint)?;
    encode_host(alloc, &HostFrame::Restore(checkpoint))
}

/// Attempts so to start the application with its kept checkpoint.
fn try_kept<W: World>(
    alloc: Global,
    world: &mut W,
    store: &Store,
    app: u32,
    words: &[String],
    buffer: &mut TakeBuffer,
    tries: &mut Vec<Tried>,
) -> Result<Option<ByteList>, AllocError>
    requires app { app < length store.now }
    requires none { tries.old.items ≡ [] }
    ensures ok { IfOk result (λ found. Restarts W.Tells app (kept_of app store.now) (W.seen world.old) (W.seen world.new) found tries.new.items) }
    ensures talks { OnErr result (TalksOn W.Tells app (W.seen world.old) (W.seen world.new)) }
    ensures own { W.Tells → OwnSteps app (W.seen world.old) (W.seen world.new) }
    ensures continues { Continues W.Tells (W.seen world.old) (W.seen world.new) }
{
    let frame = encode_restore(alloc, store.kept(app))?;
    try_all(alloc, world, app, words, frame.as_slice(), buffer, tries)
}

/// Starts the application, which has failed or was not started yet: at most three attempts, until one is ready. At each it is
/// given its kept checkpoint.
pub fn restart<W: World>(
    alloc: Global,
    world: &mut W,
    store: &Store,
    app: &mut AppState,
    words: &[String],
) -> Result<Back, AllocError>
    requires { app.old.index < length store.now }
    // How each attempt ended is what its acts say, and the application of the reference comes to the same.
    ensures ok { IfOk result (λ r. Restarts W.Tells app.old.index (kept_of app.old.index store.now) (W.seen world.old) (W.seen world.new)
        (if r.back then Some app.new.rest else None) r.tries.items) }
    ensures alive { IfOk result (λ r. app.new.alive ≡ r.back) }
    // Nothing is unread where it is not back.
    ensures rest { IfOk result (λ r. r.back ≡ false → app.new.rest ≡ []) }
    ensures index { app.new.index ≡ app.old.index }
    ensures err { OnErr result (app.new ≡ app.old) }
    // Where memory was wanting too, the attempts go on with the dialogue.
    ensures talks { OnErr result (W.Tells → (s : Before) → s.running ≡ is_running app.old.index (state (W.seen world.old)) → Talks app.old.index s (W.seen world.old) (W.seen world.new)) }
    // However it ended, there were calls for the application alone, and none gave it an event.
    ensures own { W.Tells → OwnSteps app.old.index (W.seen world.old) (W.seen world.new) }
    ensures continues { Continues W.Tells (W.seen world.old) (W.seen world.new) }
{
    let mut tries = Vec::new(alloc);
    let found = try_kept(
        alloc,
        world,
        store,
        app.index,
        words,
        &mut app.buffer,
        &mut tries,
    )?;
    app.alive = found.is_some();
    app.rest = match found {
        Some(rest) => rest,
        None => ByteList::new(alloc),
    };
    Ok(Back {
        back: app.alive,
        tries,
    })
}

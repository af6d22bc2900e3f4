//! What is given to an application, and the frames that it gives.

ghost use Rattle.std.specs.Prelude.{◌≡◌, ◌<◌, length, OnErr, IfOk, Ok, None};
ghost use Rattle.app_visor.specs.Talks.{Told, Wants};
ghost use Rattle.lego_model.specs.Journal.{give_act};
ghost use Rattle.app_visor.specs.Reads.{StepSo, Comes, Breaks};

use crate::came::Came;
use crate::intake::Intake;
use outside::{GiveFault, World};
use std::alloc::{AllocError, Global};

/// Gives the bytes to the application, and answers whether it could be given them.
pub(crate) fn give<W: World>(world: &mut W, app: u32, bytes: &[u8]) -> Result<bool, AllocError>
    ensures ok { IfOk result (λ given. Told W.Tells (give_act given app bytes.now) (W.seen world.old) (W.seen world.new)) }
    ensures err { OnErr result (Wants W.Tells (W.seen world.old) (W.seen world.new)) }
{
    match world.give(app, bytes) {
        Ok(()) => Ok(true),
        Err(GiveFault::Gone) => Ok(false),
        Err(GiveFault::Short) => Err(AllocError),
    }
}

/// Reads the next frame, or else takes a piece.
fn try_next<W: World>(
    alloc: Global,
    world: &mut W,
    app: u32,
    intake: &mut Intake,
) -> Result<Option<Came>, AllocError>
    ensures ok { IfOk result (λ came. StepSo W.Tells app came intake.old intake.new (W.seen world.old) (W.seen world.new)) }
    ensures err { OnErr result (Breaks W.Tells app intake.old (W.seen world.old) (W.seen world.new)) }
    ensures short { (result ≡ Ok None) → length intake.old < 1048583 }
{
    match intake.look(alloc)? {
        None => intake.take(world, app),
        came => Ok(came),
    }
}

/// Returns the next frame of the application, or why none comes: pieces are taken until a whole one stands there.
pub(crate) fn next_frame<W: World>(
    alloc: Global,
    world: &mut W,
    app: u32,
    intake: &mut Intake,
) -> Result<Came, AllocError>
    ensures ok { IfOk result (λ came. Comes W.Tells app intake.old intake.new (W.seen world.old) (W.seen world.new) came) }
    ensures err { OnErr result (Breaks W.Tells app intake.old (W.seen world.old) (W.seen world.new)) }
{
    loop {
        if let Some(came) = try_next(alloc, world, app, intake)? {
            return Ok(came);
        }
    }
}

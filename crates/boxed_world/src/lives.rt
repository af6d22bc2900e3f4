//! The lives of all applications, by their places.

ghost use Rattle.std.specs.Prelude.{◌≡◌, ◌≢◌, ◌<◌, ◌+◌, ◌==◌, ℕ, [], length, true, false, is_some, IfOk, IfSome, slice_get, Option, None, Some};
ghost use Rattle.lego_io.specs.Count.{raised};
ghost use Rattle.boxed_world.specs.Lives.{Begins, Fed, next_taken, held_after, object_after, dies_at, LifeTaken};
ghost use Rattle.linked_world.specs.Linked.{IsTakeable};

use crate::life::{Death, Life};
use of_types::TookWhat;
use std::alloc::{AllocError, Global};

/// Tells whether a spare is left for the next start of the application.
pub(crate) fn has_spare(lives: &[Life], app: u32) -> bool
    ensures some { result ≡ true → IfSome (slice_get lives.now app) (λ l. l.spares.items ≢ []) }
    ensures none { result ≡ false → IfSome (slice_get lives.now app) (λ l. l.spares.items ≡ []) }
{
    let place = app as usize;
    place < lives.len() && lives[place].has_spare()
}

/// Tells whether the application lives.
pub(crate) fn is_alive(lives: &[Life], app: u32) -> bool
    ensures { IfSome (slice_get lives.now app) (λ l. is_some l.object ≡ result) }
{
    let place = app as usize;
    place < lives.len() && lives[place].is_alive()
}

/// Takes the next spare of the application.
pub(crate) fn begin(lives: &mut [Life], app: u32)
    requires { IfSome (slice_get lives.old app) (λ l. l.spares.items ≢ []) }
    ensures begins { IfSome (slice_get lives.old app) (λ l. IfSome (slice_get lives.new app) (λ m. Begins l.spares.items m.spares.items m.object m.held.items)) }
    ensures others { (i : ℕ) → i ≢ app → slice_get lives.new i ≡ slice_get lives.old i }
{
    let place = app as usize;
    if place < lives.len() {
        lives[place].begin();
    }
}

/// Gives a frame of the host to the application.
pub(crate) fn feed(alloc: Global, lives: &mut [Life], app: u32, frame: &[u8])
    ensures fed { IfSome (slice_get lives.old app) (λ l. IfSome (slice_get lives.new app) (λ m.
        Fed (λ o. gives o) (λ o. would o) frame.now l.object m.object l.held.items m.held.items)) }
    ensures others { (i : ℕ) → i ≢ app → slice_get lives.new i ≡ slice_get lives.old i }
{
    let place = app as usize;
    if place < lives.len() {
        lives[place].feed(alloc, frame);
    }
}

/// Ends the life of the application.
pub(crate) fn end(lives: &mut [Life], app: u32)
    ensures ended { IfSome (slice_get lives.new app) (λ m. (m.object ≡ None) × (m.held.items ≡ [])) }
    ensures others { (i : ℕ) → i ≢ app → slice_get lives.new i ≡ slice_get lives.old i }
{
    let place = app as usize;
    if place < lives.len() {
        lives[place].end();
    }
}

/// Tells whether the take of this number is a death of the application.
fn dies_at(deaths: &[Death], app: u32, number: u64) -> bool
    ensures { result ≡ dies_at app number deaths.now }
{
    deaths
        .iter()
        .any(|death| death.app == app && death.number == number)
}

/// Tells what the next take from the application gives into so much room.
pub(crate) fn next_of(
    alloc: Global,
    lives: &[Life],
    deaths: &[Death],
    app: u32,
    room: usize,
) -> Result<TookWhat, AllocError>
    requires { 0 < room }
    ensures what { IfOk result (λ what. IfSome (slice_get lives.now app) (λ l.
        what ≡ next_taken (dies_at app (raised l.takes) deaths.now) (is_some l.object) room l.held.items)) }
    ensures takeable { IfOk result (λ what. IsTakeable what room) }
{
    let place = app as usize;
    if place < lives.len() {
        let death = dies_at(deaths, app, lives[place].takes().saturating_add(1));
        lives[place].next(alloc, death, room)
    } else {
        Ok(TookWhat::Closed)
    }
}

/// Goes on behind a take from the application into so much room.
pub(crate) fn took(lives: &mut [Life], deaths: &[Death], app: u32, room: usize)
    ensures took { IfSome (slice_get lives.old app) (λ l. IfSome (slice_get lives.new app) (λ m.
        LifeTaken (dies_at app (raised l.takes) deaths.now) room l.object m.object l.held.items m.held.items)) }
    ensures others { (i : ℕ) → i ≢ app → slice_get lives.new i ≡ slice_get lives.old i }
{
    let place = app as usize;
    if place < lives.len() {
        let death = dies_at(deaths, app, lives[place].takes().saturating_add(1));
        lives[place].took(death, room);
    }
}

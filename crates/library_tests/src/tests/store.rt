//! Each allocating call once with ample memory, and the order of staged calls.

ghost use Rattle.std.specs.Prelude.{◌≡◌, ◌<◌, length};

use checkpoint_store::{FrameList, Store, Turned};
use of_types::ByteList;
use std::alloc::{AllocError, Global};
use std::test::Fail;

/// A turn whose event has these bytes, with an empty answer and no frames.
fn turn(alloc: Global, event: &[u8]) -> Result<Turned, AllocError> {
    let mut answers = Vec::new(alloc);
    answers.push(ByteList::new(alloc))?;
    Ok(Turned {
        event: ByteList::from_slice(alloc, event)?,
        answers: FrameList::from_vec(answers),
        frames: FrameList::new(alloc),
    })
}

/// Remembers such a turn of application 1, and tells whether there was room for it.
fn remembers(alloc: Global, store: &mut Store, event: &[u8]) -> Result<bool, AllocError>
    requires { 1 < length store.old }
    ensures { length store.new ≡ length store.old }
{
    let done = turn(alloc, event)?;
    if !store.has_room(1, &done) {
        return Ok(false);
    }
    store.remember(1, done)?;
    Ok(true)
}

/// Whether one turn of five bytes is staged, and nothing is kept yet.
fn is_staged(store: &Store) -> bool
    requires { 1 < length store.now }
{
    store.kept(1).is_empty() && store.pending(1) == (1, 5)
}

/// Whether the second checkpoint and one turn are kept, and nothing of the other application.
fn is_kept(store: &Store) -> bool
    requires { 1 < length store.now }
{
    store.kept(1) == b"second".as_slice()
        && store.remembered(1).len() == 1
        && store.kept(0).is_empty()
}

/// Whether calls are done in the order in which they were staged.
fn keeps_in_order(alloc: Global) -> Result<bool, AllocError> {
    let mut store = Store::new(alloc, 2)?;
    store.stage(1, b"first")?;
    let had_room = remembers(alloc, &mut store, b"dropped")?;
    store.forget(1);
    let has_room = remembers(alloc, &mut store, b"event")?;
    store.stage(1, b"second")?;
    let is_staged = is_staged(&store);
    store.keep(1);
    Ok(had_room && has_room && is_staged && is_kept(&store))
}

#[test]
fn keeps_what_is_staged_in_order(rt: HostRuntime) -> Result<(), Fail> {
    assert!(rt; keeps_in_order(rt.alloc())?);
    Ok(())
}

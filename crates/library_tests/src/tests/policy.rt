//! Policy texts and replacements.

use app_frames::{Event, EventKind};
use crash_policy::{AppRule, Policy, PolicyFile, listens, read_policy, replacements, rule};
use of_types::ByteList;
use std::alloc::{AllocError, Global};
use std::test::Fail;

/// Texts that are no policy, and what their faults show (docs/POLICY.md).
const REFUSED: [(&str, &str); 5] = [
    ("app =", "text"),
    ("x = 1", "unknown x"),
    ("[[app]]", "missing name"),
    ("[[app]]\nname = 'a'\nbudget = 0", "range budget"),
    ("[[app]]\nname = 'a'\n[[app]]\nname = 'a'", "double a"),
];

/// Whether a text is no policy, and its fault is shown so.
fn is_refused(alloc: Global, text: &str, shown: &str) -> Result<bool, AllocError> {
    match read_policy(alloc, text.as_bytes()) {
        Ok(_) => Ok(false),
        Err(fault) => Ok(fault.to_string(alloc)?.as_str() == shown),
    }
}

#[test]
fn faults_are_shown(rt: HostRuntime) -> Result<(), Fail> {
    for (text, shown) in &REFUSED {
        assert!(rt; is_refused(rt.alloc(), text, shown)?, "{text}");
    }
    Ok(())
}

/// A text with each key.
const WHOLE: &str = "judge = 'quota'
quota = 7
[[app]]
name = 'learn'
command = ['learn', '-v']
events = ['packet_in', 'error']
budget = 3
[[app]]
name = 'clean'
policy = 'none'
rules = { leave = 'equivalence' }
";

/// Whether it is the first application of [`WHOLE`].
fn is_learn(app: &AppRule) -> bool {
    app.name.as_str() == "learn"
        && app.command.len() == 2
        && app.budget == 3
        && listens(app, EventKind::PacketIn)
        && !listens(app, EventKind::Join)
        && rule(app, EventKind::Leave) == Policy::Absolute
}

/// Whether it is the second application of [`WHOLE`].
fn is_clean(app: &AppRule) -> bool {
    app.budget == 1000
        && listens(app, EventKind::Join)
        && rule(app, EventKind::Join) == Policy::None
        && rule(app, EventKind::Leave) == Policy::Equivalence
}

/// Whether it is what [`WHOLE`] says.
fn is_whole(file: &PolicyFile) -> bool {
    match file.apps.as_slice() {
        [learn, clean] => file.quota == Some(7) && is_learn(learn) && is_clean(clean),
        _ => false,
    }
}

#[test]
fn whole_policy(rt: HostRuntime) -> Result<(), Fail> {
    let file = read_policy(rt.alloc(), WHOLE.as_bytes())?;
    assert!(rt; is_whole(&file));
    Ok(())
}

/// The ports 2 and 1, of 48 bytes each, all 0 but the numbers.
const TWO_PORTS: [u8; 96] = [
    0, 2, 0, 0, 0, 0, 0, 0, 0, 0, 0, 0, 0, 0, 0, 0, 0, 0, 0, 0, 0, 0, 0, 0, 0, 0, 0, 0, 0, 0, 0, 0,
    0, 0, 0, 0, 0, 0, 0, 0, 0, 0, 0, 0, 0, 0, 0, 0, //
    0, 1, 0, 0, 0, 0, 0, 0, 0, 0, 0, 0, 0, 0, 0, 0, 0, 0, 0, 0, 0, 0, 0, 0, 0, 0, 0, 0, 0, 0, 0, 0,
    0, 0, 0, 0, 0, 0, 0, 0, 0, 0, 0, 0, 0, 0, 0, 0,
];

fn event(alloc: Global, kind: EventKind, body: &[u8]) -> Result<Event, AllocError> {
    Ok(Event {
        kind,
        dpid: 5,
        body: ByteList::from_slice(alloc, body)?,
    })
}

/// Whether it is a PORT_STATUS of the port with the reason MODIFY and no link.
fn is_link_lost(event: &Event, number: u8) -> bool {
    let body = event.body.as_slice();
    event.kind == EventKind::PortStatus
        && body.len() == 64
        && body[8] == 2
        && body[17] == number
        && body[47] == 1
}

/// Whether a Leave of the ports 2 and 1 is replaced by one PORT_STATUS for each port, ascending.
fn replaces_leave(alloc: Global) -> Result<bool, AllocError> {
    let leave = event(alloc, EventKind::Leave, &TWO_PORTS)?;
    let events = replacements(alloc, &leave)?;
    match events.as_slice() {
        [first, second] => Ok(is_link_lost(first, 1) && is_link_lost(second, 2)),
        _ => Ok(false),
    }
}

/// Whether a Join is replaced by nothing.
fn replaces_no_join(alloc: Global) -> Result<bool, AllocError> {
    let join = event(alloc, EventKind::Join, &[])?;
    Ok(replacements(alloc, &join)?.is_empty())
}

#[test]
fn leave_is_replaced(rt: HostRuntime) -> Result<(), Fail> {
    assert!(rt; replaces_leave(rt.alloc())?);
    assert!(rt; replaces_no_join(rt.alloc())?);
    Ok(())
}

//! What a switch sends, and what its ports count.

ghost use Rattle.std.specs.Prelude.{◌≡◌, ◌+◌, ◌<◌, ◌≤◌};

use super::messages::{
    ADD, Changes, ENQUEUE, FRAME, PACKET_OUT, PORT_MOD, PORT_STATISTICS, TO_ALL, TO_CONTROLLER,
    TO_FLOOD, TO_IN_PORT, TO_TABLE, changed,
};
use of_types::{ByteList, PortChange, PortNo, Stimulus, get_u64};
use of_wire::{Envelope, WireFault, decode, size};
use std::alloc::{AllocError, Global};
use std::test::Fail;
use switch_sim::{MessageList, SimSwitch};

/// The most steps of a test.
const MOST: usize = 1_000;

/// What happens to a switch, and what comes of it.
#[derive(Clone, Copy)]
enum Step {
    /// It is a new one, whose table takes so many entries, with these ports.
    New(u32, &'static [PortNo]),
    /// A message comes, with other bytes at some places. One message answers that begins with these bytes, or none if there are none.
    Message(&'static [u8], Changes, &'static [u8]),
    /// The same for a new switch, whose table takes one entry, with ports 1 and 2.
    FirstMessage(&'static [u8], Changes, &'static [u8]),
    /// `FRAME` comes in by a port, and so many messages are sent.
    Frame(PortNo, usize),
    /// A port changes, and so many messages are sent.
    Port(PortNo, PortChange, usize),
    /// Each of three ports has sent so many frames by now, and dropped so many.
    Counts([(u64, u64); 3]),
}

const STEPS: &[Step] = &[
    // ERROR (5.4.4). Of a FLOW_MOD that is wrong in several ways the first one counts: an emergency entry, a command, a buffer, a port.
    Step::FirstMessage(
        &ADD,
        &[(71, 4), (57, 5), (67, 0), (77, 9)],
        &[1, 1, 0, 76, 0, 0, 0, 9, 0, 3, 0, 2],
    ),
    Step::FirstMessage(
        &ADD,
        &[(57, 5), (67, 0), (77, 9)],
        &[1, 1, 0, 76, 0, 0, 0, 9, 0, 3, 0, 4],
    ),
    Step::FirstMessage(
        &ADD,
        &[(67, 0), (77, 9)],
        &[1, 1, 0, 76, 0, 0, 0, 9, 0, 1, 0, 8],
    ),
    Step::FirstMessage(&ADD, &[(77, 9)], &[1, 1, 0, 76, 0, 0, 0, 9, 0, 2, 0, 4]),
    Step::FirstMessage(
        &ADD,
        &[(76, 0xff), (77, 0xf9)],
        &[1, 1, 0, 76, 0, 0, 0, 9, 0, 2, 0, 4],
    ),
    Step::FirstMessage(&ENQUEUE, &[], &[1, 1, 0, 76, 0, 0, 0, 9, 0, 2, 0, 0]),
    Step::FirstMessage(
        &ADD,
        &[(72, 0xff), (73, 0xff)],
        &[1, 1, 0, 76, 0, 0, 0, 9, 0, 2, 0, 2],
    ),
    // SET_CONFIG with a flag; PORT_MOD of no port, and with another address.
    Step::FirstMessage(
        &[1, 9, 0, 12, 0, 0, 0, 9, 0, 1, 0, 0],
        &[],
        &[1, 1, 0, 24, 0, 0, 0, 9, 0, 1, 0, 5],
    ),
    Step::FirstMessage(
        &PORT_MOD,
        &[(9, 3), (15, 2), (19, 0x10), (23, 0x10)],
        &[1, 1, 0, 44, 0, 0, 0, 9, 0, 4, 0, 0],
    ),
    Step::FirstMessage(
        &PORT_MOD,
        &[(9, 2), (15, 1), (19, 0x10), (23, 0x10)],
        &[1, 1, 0, 44, 0, 0, 0, 9, 0, 4, 0, 1],
    ),
    // PACKET_OUT to no port; requests of QUEUE, and of PORT without a port; VENDOR; BARRIER_REPLY.
    Step::FirstMessage(
        &PACKET_OUT,
        &[(21, 9)],
        &[1, 1, 0, 50, 0, 0, 0, 9, 0, 2, 0, 4],
    ),
    Step::FirstMessage(
        &[1, 16, 0, 12, 0, 0, 0, 9, 0, 5, 0, 0],
        &[],
        &[1, 1, 0, 24, 0, 0, 0, 9, 0, 1, 0, 2],
    ),
    Step::FirstMessage(
        &[1, 16, 0, 12, 0, 0, 0, 9, 0, 4, 0, 0],
        &[],
        &[1, 1, 0, 24, 0, 0, 0, 9, 0, 1, 0, 6],
    ),
    Step::FirstMessage(
        &[1, 4, 0, 12, 0, 0, 0, 9, 0, 0, 0x23, 0x20],
        &[],
        &[1, 1, 0, 24, 0, 0, 0, 9, 0, 1, 0, 3],
    ),
    Step::FirstMessage(
        &[1, 19, 0, 8, 0, 0, 0, 9],
        &[],
        &[1, 1, 0, 20, 0, 0, 0, 9, 0, 1, 0, 1],
    ),
    // HELLO, ECHO_REQUEST, GET_CONFIG_REQUEST, FEATURES_REQUEST and BARRIER_REQUEST.
    Step::New(1, &[]),
    Step::Message(&[1, 0, 0, 8, 0, 0, 0, 9], &[], &[]),
    Step::Message(
        &[1, 2, 0, 10, 0, 0, 0, 9, 7, 8],
        &[],
        &[1, 3, 0, 10, 0, 0, 0, 9, 7, 8],
    ),
    Step::Message(
        &[1, 7, 0, 8, 0, 0, 0, 9],
        &[],
        &[1, 8, 0, 12, 0, 0, 0, 9, 0, 0, 0, 128],
    ),
    Step::Message(
        &[1, 5, 0, 8, 0, 0, 0, 9],
        &[],
        &[
            1, 6, 0, 32, 0, 0, 0, 9, 0, 0, 0, 0, 0, 0, 0, 1, 0, 0, 0, 0, 1, 0, 0, 0, 0, 0, 0, 0x87,
            0, 0, 7, 0xff,
        ],
    ),
    Step::Message(&[1, 18, 0, 8, 0, 0, 0, 9], &[], &[1, 19, 0, 8, 0, 0, 0, 9]),
    // An entry; one that overlaps it and asks for the check; one too many, whose first 64 bytes come back.
    Step::New(1, &[1, 2]),
    Step::Message(&ADD, &[], &[]),
    Step::Message(
        &ADD,
        &[(11, 0xff), (13, 0), (71, 2)],
        &[1, 1, 0, 76, 0, 0, 0, 9, 0, 3, 0, 1],
    ),
    Step::Message(
        &ADD,
        &[(13, 2)],
        &[
            1, 1, 0, 76, 0, 0, 0, 9, 0, 3, 0, 0, 1, 14, 0, 80, 0, 0, 0, 9, 0, 0x38, 0x20, 0xfe, 0,
            2, 0, 0,
        ],
    ),
    // PACKET_OUT to CONTROLLER, and to TABLE, where the entry covers it.
    Step::Message(
        &PACKET_OUT,
        TO_CONTROLLER,
        &[
            1, 10, 0, 32, 0, 0, 0, 0, 0xff, 0xff, 0xff, 0xff, 0, 14, 0, 1, 1, 0, 0xff,
        ],
    ),
    Step::Message(&PACKET_OUT, TO_TABLE, &[]),
    // To a port; to the port of entry by its number, and as IN_PORT; to ALL.
    Step::New(2, &[1, 2, 3]),
    Step::Message(&PACKET_OUT, &[(21, 2)], &[]),
    Step::Counts([(0, 0), (1, 0), (0, 0)]),
    Step::Message(&PACKET_OUT, &[(21, 1)], &[]),
    Step::Counts([(0, 0), (1, 0), (0, 0)]),
    Step::Message(&PACKET_OUT, TO_IN_PORT, &[]),
    Step::Counts([(1, 0), (1, 0), (0, 0)]),
    Step::Message(&PACKET_OUT, TO_ALL, &[]),
    Step::Counts([(1, 0), (2, 0), (1, 0)]),
    // FLOOD passes over a port with NO_FLOOD.
    Step::Message(&PORT_MOD, &[(9, 3), (15, 3), (19, 0x10), (23, 0x10)], &[]),
    Step::Counts([(1, 0), (2, 0), (1, 0)]),
    Step::Message(&PACKET_OUT, TO_FLOOD, &[]),
    Step::Counts([(1, 0), (3, 0), (1, 0)]),
    // PORT_DOWN and NO_FWD drop what goes out by the port. NO_STP is not kept.
    Step::Message(&PORT_MOD, &[(9, 2), (15, 2), (19, 0x01), (23, 0x01)], &[]),
    Step::Counts([(1, 0), (3, 0), (1, 0)]),
    Step::Message(&PORT_MOD, &[(9, 3), (15, 3), (19, 0x20), (23, 0x20)], &[]),
    Step::Counts([(1, 0), (3, 0), (1, 0)]),
    Step::Message(&PACKET_OUT, TO_ALL, &[]),
    Step::Counts([(1, 0), (3, 1), (1, 1)]),
    Step::Message(&PORT_MOD, &[(9, 2), (15, 2), (19, 0x02), (23, 0x03)], &[]),
    Step::Counts([(1, 0), (3, 1), (1, 1)]),
    Step::Message(&PACKET_OUT, TO_ALL, &[]),
    Step::Counts([(1, 0), (4, 1), (1, 2)]),
    // A miss is told, unless the port has NO_PACKET_IN or NO_RECV or is down; where there is no port nothing comes in.
    Step::New(2, &[1, 2]),
    Step::Frame(1, 1),
    Step::Frame(9, 0),
    Step::New(2, &[1, 2]),
    Step::Message(&PORT_MOD, &[(9, 1), (15, 1), (19, 0x40), (23, 0x40)], &[]),
    Step::Frame(1, 0),
    Step::New(2, &[1, 2]),
    Step::Message(&PORT_MOD, &[(9, 1), (15, 1), (19, 0x04), (23, 0x04)], &[]),
    Step::Frame(1, 0),
    Step::New(2, &[1, 2]),
    Step::Message(&PORT_MOD, &[(9, 1), (15, 1), (19, 0x01), (23, 0x01)], &[]),
    Step::Frame(1, 0),
    // Only what changes something is told. A port without a link drops; one that came anew counts from 0.
    Step::New(2, &[1, 2, 3]),
    Step::Port(3, PortChange::Down, 1),
    Step::Port(3, PortChange::Down, 0),
    Step::Message(&PACKET_OUT, TO_ALL, &[]),
    Step::Counts([(0, 0), (1, 0), (0, 1)]),
    Step::Port(2, PortChange::Delete, 1),
    Step::Message(&PACKET_OUT, &[(21, 2)], &[]),
    Step::Port(2, PortChange::Add, 1),
    Step::Counts([(0, 0), (0, 0), (0, 1)]),
];

/// What the switch sends for a message.
fn answer(switch: &mut SimSwitch, envelope: &Envelope) -> Result<MessageList, WireFault>
    requires { switch.old.table.next ≤ 1000 }
    ensures { switch.new.table.next ≤ switch.old.table.next + 1 }
{
    if size(&envelope.message) > 65535 {
        return Err(WireFault::BadLength);
    }
    Ok(switch.message(envelope.xid, &envelope.message)?)
}

/// What the switch sends when the bytes of a message reach it.
pub(super) fn send(
    alloc: Global,
    switch: &mut SimSwitch,
    bytes: &[u8],
) -> Result<MessageList, WireFault>
    requires { switch.old.table.next ≤ 1000 }
    ensures { switch.new.table.next ≤ switch.old.table.next + 1 }
{
    let envelope = decode(alloc, bytes)?;
    let sent = answer(switch, &envelope);
    drop(envelope);
    sent
}

/// Whether one message was sent that begins with these bytes; where there are none, whether no message was.
fn is_reply(sent: &[ByteList], front: &[u8]) -> bool {
    match sent {
        [] => front.is_empty(),
        [reply] => !front.is_empty() && reply.as_slice().starts_with(front),
        _ => false,
    }
}

/// Whether a message is answered so.
fn is_answered(
    alloc: Global,
    switch: &mut SimSwitch,
    message: &[u8],
    changes: &[(usize, u8)],
    front: &[u8],
) -> Result<bool, WireFault>
    requires { switch.old.table.next ≤ 1000 }
    ensures { switch.new.table.next ≤ switch.old.table.next + 1 }
{
    let sent = send(alloc, switch, &changed(alloc, message, changes)?)?;
    Ok(is_reply(sent.as_slice(), front))
}

/// Whether one message was sent, with the statistics of three ports (5.3.5) that sent and dropped so many frames.
fn are_counts(sent: &[ByteList], counts: &[(u64, u64); 3]) -> bool {
    let reply = match sent {
        [reply] => reply.as_slice(),
        _ => return false,
    };
    if reply.len() != 12 + 3 * 104 {
        return false;
    }
    let found = [
        (get_u64(reply, 28), get_u64(reply, 60)),
        (get_u64(reply, 132), get_u64(reply, 164)),
        (get_u64(reply, 236), get_u64(reply, 268)),
    ];
    found == *counts
}

/// How many messages a switch sends when a frame arrives.
fn arrive(alloc: Global, switch: &mut SimSwitch, port: PortNo) -> Result<usize, AllocError>
    ensures { switch.new.table.next ≡ switch.old.table.next }
{
    let bytes = ByteList::from_slice(alloc, &FRAME)?;
    let sent = switch.stimulus(&Stimulus::Frame { port, bytes })?;
    Ok(sent.len())
}

/// How many messages a switch sends when a port changes.
fn change(switch: &mut SimSwitch, port: PortNo, change: PortChange) -> Result<usize, AllocError>
    ensures { switch.new.table.next ≡ switch.old.table.next }
{
    let sent = switch.stimulus(&Stimulus::Port { port, change })?;
    Ok(sent.len())
}

/// Whether this comes of what happens.
fn comes(alloc: Global, switch: &mut SimSwitch, step: Step) -> Result<bool, WireFault>
    requires { switch.old.table.next ≤ 1000 }
    ensures { switch.new.table.next ≤ switch.old.table.next + 1 }
{
    match step {
        Step::New(cap, ports) => {
            if ports.len() > 64 {
                return Ok(false);
            }
            *switch = SimSwitch::new(alloc, 1, cap, ports)?;
            Ok(true)
        }
        Step::Message(message, changes, front) => is_answered(
            alloc, switch, message, changes, front,
        ),
        Step::FirstMessage(message, changes, front) => {
            *switch = SimSwitch::new(alloc, 1, 1, &[1, 2])?;
            is_answered(alloc, switch, message, changes, front)
        }
        Step::Frame(port, count) => Ok(arrive(alloc, switch, port)? == count),
        Step::Port(port, event, count) => Ok(change(switch, port, event)? == count),
        Step::Counts(counts) => {
            let sent = send(alloc, switch, &PORT_STATISTICS)?;
            Ok(are_counts(sent.as_slice(), &counts))
        }
    }
}

/// The first step of which something else comes, counted from 0.
fn first_wrong(
    alloc: Global,
    switch: &mut SimSwitch,
    steps: &[Step],
) -> Result<Option<usize>, WireFault>
    requires { switch.old.table.next ≡ 0 }
{
    for k in 0..steps.len().min(MOST) {
        if !comes(alloc, switch, steps[k])? {
            return Ok(Some(k));
        }
    }
    Ok(None)
}

#[test]
fn switches_answer_and_count(rt: HostRuntime) -> Result<(), Fail> {
    let mut switch = SimSwitch::new(rt.alloc(), 1, 1, &[])?;
    let wrong = first_wrong(rt.alloc(), &mut switch, STEPS)?;
    assert!(rt; wrong.is_none(), "step {wrong:?}");
    Ok(())
}

/// Whether an entry for the packets of port `k` and one for those to 10.0.`k`.0/24 are put in, each without an answer.
fn takes_both(alloc: Global, switch: &mut SimSwitch, k: u8) -> Result<bool, WireFault>
    requires { switch.old.table.next ≤ 900 }
    ensures { switch.new.table.next ≤ switch.old.table.next + 2 }
{
    let port = is_answered(alloc, switch, &ADD, &[(13, k)], &[])?;
    let network = [(9, 0x32), (11, 0xef), (13, 0), (30, 8), (40, 10), (42, k)];
    Ok(is_answered(alloc, switch, &ADD, &network, &[])? && port)
}

/// Whether 250 entries of each of the two kinds are put in.
fn takes_all(alloc: Global, switch: &mut SimSwitch) -> Result<bool, WireFault>
    requires { switch.old.table.next ≡ 0 }
{
    for k in 0..250u8 {
        if !takes_both(alloc, switch, k + 1)? {
            return Ok(false);
        }
    }
    Ok(true)
}

#[test]
fn entries_of_two_wildcard_words_make_two_groups(rt: HostRuntime) -> Result<(), Fail> {
    let mut switch = SimSwitch::new(rt.alloc(), 1, 500, &[1, 2])?;
    let filled = takes_all(rt.alloc(), &mut switch)?;
    let groups = switch.groups();
    assert!(rt; filled && groups == 2, "{filled} {groups}");
    Ok(())
}

//! Packets that are held, in any world.

ghost use Rattle.std.specs.Prelude.{◌≤◌};

use super::calls::by_change;
use super::ended::{Ended, by_event, by_fault, by_release};
use super::messages::{CONTROLLER, packet, told};
use net_txn::{EventQueue, Net, Txn, TxnFault};
use of_types::Dpid;
use outside::World;
use std::alloc::Global;

fn by_commit(released: Result<Vec<(Dpid, u32)>, TxnFault>) -> Ended {
    match released {
        Ok(released) => by_release(&released),
        Err(fault) => by_fault(&fault),
    }
}

/// The event that waits first; it is expected with this body.
fn next_event(queue: &mut EventQueue, body: &[u8]) -> Ended {
    match queue.take_first() {
        Some(event) => by_event(&event, body),
        None => Ended::NoEvent,
    }
}

/// How two packets of switch 1 for the controller were answered, how their transaction was kept, and the two events that
/// wait then.
pub fn release_two<W: World>(alloc: Global, world: &mut W, net: &mut Net) -> [Ended; 5]
    requires { 1 ≤ net.old.room }
{
    let mut queue = EventQueue::new(alloc);
    let mut txn = Txn::begin(net);
    let first = by_change(txn.change(world, 1, &packet(CONTROLLER, 1)));
    let second = by_change(txn.change(world, 1, &packet(CONTROLLER, 2)));
    let kept = by_commit(txn.commit(world, &mut queue));
    let event = next_event(&mut queue, &told(1));
    let later = next_event(&mut queue, &told(2));
    [first, second, kept, event, later]
}

//! Notices of entries that a change removed, held until the transaction closes.

ghost use Rattle.std.specs.Prelude.{◌≡◌, ◌⊎◌, ◌++◌, IfOk, OnOk, OnErr};
ghost use Rattle.of_wire.specs.Reading.{reading_of};
ghost use Rattle.flow_table.specs.View.{plains};
ghost use Rattle.net_txn.specs.Arriving.{notice_told, notices_told};
ghost use Rattle.lego_model.specs.Events.{event_list};
ghost use Rattle.net_txn.specs.Views.{with_rows, with_added};

use crate::arriving::removed_event;
use crate::queue::EventQueue;
use crate::view_table::ViewTable;
use app_frames::Event;
use flow_table::{TableView, ViewRow};
use of_types::{ByteList, Dpid};
use of_wire::{Message, WireFault, decode};
use std::alloc::{AllocError, Global};

/// Returns the event of a notice, where the owner of the entry is told.
fn event_of_notice(
    alloc: Global,
    views: &[TableView],
    dpid: Dpid,
    notice: &[u8],
) -> Result<Option<Event>, AllocError>
    ensures { IfOk result (λ e. event_list e ≡ notice_told dpid (plains views.now) (reading_of notice.now)) }
{
    match decode(alloc, notice) {
        Ok(envelope) => match &envelope.message {
            Message::FlowRemoved(flow) => {
                removed_event(alloc, views, dpid, flow, &envelope.message)
            }
            _ => Ok(None),
        },
        Err(WireFault::NoMemory) => Err(AllocError),
        Err(_) => Ok(None),
    }
}

/// Appends an event, where there is one.
fn append(events: &mut EventQueue, event: Option<Event>) -> Result<(), AllocError>
    ensures { OnOk result (events.new ≡ events.old ++ event_list event) }
{
    if let Some(event) = event {
        events.push(event)?;
    }
    Ok(())
}

/// Appends the event of a notice, where the owner of the entry is told.
fn append_event(
    alloc: Global,
    views: &[TableView],
    dpid: Dpid,
    notice: &[u8],
    events: &mut EventQueue,
) -> Result<(), AllocError>
    ensures { OnOk result (events.new ≡ events.old ++ notice_told dpid (plains views.now) (reading_of notice.now)) }
{
    let event = event_of_notice(alloc, views, dpid, notice)?;
    append(events, event)
}

/// Returns the events of notices, in order.
fn events_of_notices(
    alloc: Global,
    views: &[TableView],
    dpid: Dpid,
    notices: &[ByteList],
) -> Result<EventQueue, AllocError>
    ensures { IfOk result (λ events. events ≡ notices_told dpid (plains views.now) notices.now) }
{
    let mut events = EventQueue::new(alloc);
    for notice in notices {
        append_event(alloc, views, dpid, notice.as_slice(), &mut events)?;
    }
    Ok(events)
}

/// Does what follows of a change that its switch took: the row that it adds goes into the view, and the notices that came with it are
/// held.
pub(crate) fn take_effect(
    alloc: Global,
    views: &mut ViewTable,
    held: &mut EventQueue,
    dpid: Dpid,
    row: Option<ViewRow>,
    notices: &[ByteList],
) -> Result<(), AllocError>
    ensures ok { OnOk result (views.new ≡ with_rows dpid (with_added row) views.old) }
    ensures held { OnOk result (held.new ≡ held.old ++ notices_told dpid views.old notices.now) }
    ensures err { OnErr result ((views.new ≡ views.old) ⊎ (views.new ≡ with_rows dpid (with_added row) views.old)) }
    ensures unheld { OnErr result (held.new ≡ held.old) }
{
    let mut events = events_of_notices(alloc, views.all(), dpid, notices)?;
    views.put_added(dpid, row)?;
    held.append(&mut events)
}

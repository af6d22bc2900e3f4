//! A change before it is sent.

ghost use Rattle.std.specs.Prelude.{◌≡◌, IfOk, IsOk};
ghost use Rattle.of_wire.specs.declared.message.Message.TheVariants as messages;
ghost use Rattle.of_wire.specs.Reading.{reading_of};
ghost use Rattle.of_wire.specs.Grammar.{IsMessage};
ghost use Rattle.of_wire.specs.Spelling.{message_bytes};
ghost use Rattle.flow_table.specs.Change.{is_delete};
ghost use Rattle.lego_model.specs.Answers.{as_sent};
ghost use Rattle.net_txn.specs.Views.{row_added};
ghost use Rattle.lego_model.specs.ViewRows.{row_in};
ghost use Rattle.net_txn.specs.Net.{logged_by};

use crate::logged::{Logged, undoing};
use crate::rows::key_of;
use flow_table::ViewRow;
use of_action::copy_actions;
use of_types::{ByteList, Dpid, Xid, flows};
use of_wire::{FlowMod, Message, encode};
use std::alloc::{AllocError, Global};

/// A change as it is sent, the row that it adds, and what undoes it; a DELETE that touches no row adds none.
#[derive(Drop, Debug)]
pub(crate) struct Prepared {
    pub frame: ByteList,
    pub row: Option<ViewRow>,
    pub logged: Option<Logged>,
}

/// Tells whether the command is one of the two of DELETE.
fn is_deleting(m: &FlowMod) -> bool
    ensures { result ≡ is_delete m.now }
{
    m.command == flows::DELETE || m.command == flows::DELETE_STRICT
}

/// Returns the row that an addition adds.
fn row_of(alloc: Global, m: &FlowMod) -> Result<ViewRow, AllocError>
    ensures { IfOk result (λ r. r ≡ row_in m.now) }
{
    let actions = copy_actions(alloc, &m.actions)?;
    Ok(ViewRow {
        key: key_of(m),
        actions,
        cookie: m.cookie,
        idle: m.idle,
        hard: m.hard,
        flags: flows::kept_flags(m.flags),
    })
}

fn added(alloc: Global, m: &FlowMod) -> Result<Option<ViewRow>, AllocError>
    ensures { IfOk result (λ r. r ≡ row_added m.now) }
{
    if is_deleting(m) {
        Ok(None)
    } else {
        Ok(Some(row_of(alloc, m)?))
    }
}

fn undone(dpid: Dpid, m: &FlowMod) -> Option<Logged>
    ensures { result ≡ logged_by dpid m.now }
{
    if is_deleting(m) {
        None
    } else {
        Some(undoing(dpid, &key_of(m)))
    }
}

/// Returns the change as it is sent: with no buffer, and with SEND_FLOW_REM.
fn as_sent(m: FlowMod) -> Message
    ensures { result ≡ as_sent (messages.FlowMod m) }
{
    Message::FlowMod(FlowMod {
        buffer_id: flows::NO_BUFFER,
        flags: m.flags / 2 * 2 + flows::SEND_FLOW_REM,
        ..m
    })
}

/// Returns the bytes of a change as it is sent.
fn frame_of(alloc: Global, xid: Xid, m: FlowMod) -> Result<ByteList, AllocError>
    requires { IsMessage (messages.FlowMod m) }
    ensures bytes { IfOk result (λ b. b ≡ message_bytes xid (as_sent (messages.FlowMod m))) }
    ensures read { IfOk result (λ b. IsOk (reading_of b)) }
{
    encode(alloc, xid, &as_sent(m))
}

/// Returns all that a change takes memory for before it is sent.
pub(crate) fn prepare(
    alloc: Global,
    dpid: Dpid,
    xid: Xid,
    m: FlowMod,
) -> Result<Prepared, AllocError>
    requires { IsMessage (messages.FlowMod m) }
    ensures frame { IfOk result (λ p. p.frame ≡ message_bytes xid (as_sent (messages.FlowMod m))) }
    ensures read { IfOk result (λ p. IsOk (reading_of p.frame)) }
    ensures row { IfOk result (λ p. p.row ≡ row_added m) }
    ensures logged { IfOk result (λ p. p.logged ≡ logged_by dpid m) }
{
    let row = added(alloc, &m)?;
    let logged = undone(dpid, &m);
    let frame = frame_of(alloc, xid, m)?;
    Ok(Prepared { frame, row, logged })
}

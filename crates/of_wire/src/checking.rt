//! Whether bytes are a message, without making it.

ghost use Rattle.std.specs.Prelude.{◌≤◌, length, drop, IsTrue};
ghost use Rattle.of_action.specs.Reading.{actions_of};
ghost use Rattle.of_wire.specs.Reading.{Tells, of_actions, has_length, packet_out_of, flow_mod_of, body_of, reading_of};

use crate::fault::WireFault;
use crate::front::front;
use crate::kind::MessageKind;
use of_action::check_list;
use of_types::get_u16;

fn check_actions(bytes: &[u8]) -> Result<(), WireFault>
    ensures { Tells result (of_actions (actions_of bytes.now)) }
{
    Ok(check_list(bytes)?)
}

fn check_actions_from(bytes: &[u8], at: usize) -> Result<(), WireFault>
    requires { at ≤ length bytes.now }
    ensures { Tells result (of_actions (actions_of (drop at bytes.now))) }
{
    check_actions(&bytes[at..])
}

#[tactic(auto, unfolding(crate::specs::Reading::packet_out_of))]
fn check_packet_out(bytes: &[u8]) -> Result<(), WireFault>
    requires { 16 ≤ length bytes.now }
    ensures { Tells result (packet_out_of bytes.now) }
{
    let actions_len = usize::from(get_u16(bytes, 14));
    if bytes.len() < 16 + actions_len {
        return Err(WireFault::BadLength);
    }
    check_actions(&bytes[16..16 + actions_len])
}

#[tactic(auto, unfolding(crate::specs::Reading::flow_mod_of))]
fn check_flow_mod(bytes: &[u8]) -> Result<(), WireFault>
    requires { 72 ≤ length bytes.now }
    ensures { Tells result (flow_mod_of bytes.now) }
{
    check_actions_from(bytes, 72)
}

#[tactic(auto, unfolding(crate::specs::Reading::body_of))]
fn check_body(kind: MessageKind, bytes: &[u8]) -> Result<(), WireFault>
    requires { IsTrue (has_length kind (length bytes.now)) }
    ensures { Tells result (body_of kind bytes.now) }
{
    match kind {
        MessageKind::PacketOut => check_packet_out(bytes),
        MessageKind::FlowMod => check_flow_mod(bytes),
        _ => Ok(()),
    }
}

/// Answers as `decode` does, without the message: Ok exactly where it is, and the same fault. Takes no
/// memory and never answers `NoMemory`.
#[tactic(auto, unfolding(crate::specs::Reading::reading_of))]
pub fn check(bytes: &[u8]) -> Result<(), WireFault>
    ensures { Tells result (reading_of bytes.now) }
{
    let kind = front(bytes)?;
    check_body(kind, bytes)
}

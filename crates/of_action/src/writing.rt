//! Actions into bytes.

ghost use Rattle.std.specs.Prelude.{◌≡◌, ◌+◌, ◌^◌, ◌-◌, ◌∷◌, [], length, min};
ghost use Rattle.of_types.specs.Layout.{spelled, number, raw, pad};
ghost use Rattle.of_action.specs.Spelling.{action_bytes, action_size, list_bytes, list_size};

use crate::action::Action;
use crate::list::ActionList;
use crate::opaque::Opaque;
use of_types::{actions, put_bytes, put_u8, put_u16, put_u32};

fn put_half(out: &mut [u8], kind: u16, value: u16)
    requires { length out.old ≡ 8 }
    ensures { out.new ≡ spelled (number 2 kind ∷ number 2 8 ∷ number 2 value ∷ pad 2 ∷ []) }
{
    put_u16(out, 0, kind);
    put_u16(out, 2, 8);
    put_u16(out, 4, value);
    put_bytes(out, 6, &[0; 2]);
}

fn put_byte(out: &mut [u8], kind: u16, value: u8)
    requires { length out.old ≡ 8 }
    ensures { out.new ≡ spelled (number 2 kind ∷ number 2 8 ∷ number 1 value ∷ pad 3 ∷ []) }
{
    put_u16(out, 0, kind);
    put_u16(out, 2, 8);
    put_u8(out, 4, value);
    put_bytes(out, 5, &[0; 3]);
}

fn put_word(out: &mut [u8], kind: u16, value: u32)
    requires { length out.old ≡ 8 }
    ensures { out.new ≡ spelled (number 2 kind ∷ number 2 8 ∷ number 4 value ∷ []) }
{
    put_u16(out, 0, kind);
    put_u16(out, 2, 8);
    put_u32(out, 4, value);
}

fn put_address(out: &mut [u8], kind: u16, address: &[u8; 6])
    requires { length out.old ≡ 16 }
    ensures { out.new ≡ spelled (number 2 kind ∷ number 2 16 ∷ raw 6 address.now ∷ pad 6 ∷ []) }
{
    put_u16(out, 0, kind);
    put_u16(out, 2, 16);
    put_bytes(out, 4, address);
    put_bytes(out, 10, &[0; 6]);
}

#[tactic(auto, unfolding(crate::specs::Spelling::action_bytes))]
fn put_output(out: &mut [u8], port: u16, max_len: u16)
    requires { length out.old ≡ 8 }
    ensures { out.new ≡ action_bytes (Action.Output port max_len) }
{
    put_u16(out, 0, actions::OUTPUT);
    put_u16(out, 2, 8);
    put_u16(out, 4, port);
    put_u16(out, 6, max_len);
}

#[tactic(auto, unfolding(crate::specs::Spelling::action_bytes))]
fn put_strip(out: &mut [u8])
    requires { length out.old ≡ 8 }
    ensures { out.new ≡ action_bytes Action.StripVlan }
{
    put_u16(out, 0, actions::STRIP_VLAN);
    put_u16(out, 2, 8);
    put_bytes(out, 4, &[0; 4]);
}

#[tactic(auto, unfolding(crate::specs::Spelling::action_bytes))]
fn put_enqueue(out: &mut [u8], port: u16, queue: u32)
    requires { length out.old ≡ 16 }
    ensures { out.new ≡ action_bytes (Action.Enqueue port queue) }
{
    put_u16(out, 0, actions::ENQUEUE);
    put_u16(out, 2, 16);
    put_u16(out, 4, port);
    put_bytes(out, 6, &[0; 6]);
    put_u32(out, 12, queue);
}

fn put_vendor(out: &mut [u8], body: &Opaque)
    requires { length out.old ≡ length body.now + 4 }
    ensures { out.new ≡ action_bytes (Action.Vendor body.now) }
{
    let low_bits = (out.len() % 0x1_0000) as u16;
    put_u16(out, 0, actions::VENDOR);
    put_u16(out, 2, low_bits);
    put_bytes(out, 4, body.as_slice());
}

#[tactic(auto, unfolding(crate::specs::Spelling::action_bytes))]
fn put_action(out: &mut [u8], action: &Action)
    requires { length out.old ≡ action_size action.now }
    ensures { out.new ≡ action_bytes action.now }
{
    match action {
        Action::Output { port, max_len } => put_output(out, *port, *max_len),
        Action::SetVlanVid(vid) => put_half(out, actions::SET_VLAN_VID, *vid),
        Action::SetVlanPcp(pcp) => put_byte(out, actions::SET_VLAN_PCP, *pcp),
        Action::StripVlan => put_strip(out),
        Action::SetDlSrc(address) => put_address(out, actions::SET_DL_SRC, address),
        Action::SetDlDst(address) => put_address(out, actions::SET_DL_DST, address),
        Action::SetNwSrc(address) => put_word(out, actions::SET_NW_SRC, *address),
        Action::SetNwDst(address) => put_word(out, actions::SET_NW_DST, *address),
        Action::SetNwTos(tos) => put_byte(out, actions::SET_NW_TOS, *tos),
        Action::SetTpSrc(port) => put_half(out, actions::SET_TP_SRC, *port),
        Action::SetTpDst(port) => put_half(out, actions::SET_TP_DST, *port),
        Action::Enqueue { port, queue } => put_enqueue(out, *port, *queue),
        Action::Vendor(body) => put_vendor(out, body),
    }
}

/// How many bytes an action takes, or the type's greatest value above it.
fn size_of_action(action: &Action) -> usize
    ensures { result ≡ min (action_size action.now) (2 ^ 64 - 1) }
{
    match action {
        Action::SetDlSrc(_) | Action::SetDlDst(_) | Action::Enqueue { .. } => 16,
        Action::Vendor(body) => body.as_slice().len().saturating_add(4),
        _ => 8,
    }
}

/// Counts the bytes that the list takes; the type's greatest value where they are more. Takes no memory.
pub fn size(list: &ActionList) -> usize
    ensures { result ≡ min (list_size list.now) (2 ^ 64 - 1) }
{
    let mut total: usize = 0;
    for action in list.as_slice() {
        total = total.saturating_add(size_of_action(action));
    }
    total
}

/// Writes the list over all of `out`, which has its size. Pads are written 0. A vendor's action that is
/// longer than 65,535 bytes, which the grammar does not have, gets the low 16 bits of its length.
/// Takes no memory.
pub fn encode_list(list: &ActionList, out: &mut [u8])
    requires { length out.old ≡ list_size list.now }
    ensures { out.new ≡ list_bytes list.now }
{
    let mut at = 0;
    for action in list.as_slice() {
        let end = at + size_of_action(action);
        put_action(&mut out[at..end], action);
        at = end;
    }
}

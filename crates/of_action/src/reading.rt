//! Actions out of bytes.

ghost use Rattle.std.specs.Prelude.{◌≡◌, ℕ, ◌+◌, ◌≤◌, List, length, drop, IfOk, Ok};
ghost use Rattle.of_types.specs.Fields.{number_at, IsBytes};
ghost use Rattle.of_action.specs.declared.action.Action.{Action};
ghost use Rattle.of_action.specs.Spelling.{list_bytes, AreActions, Spell, SameButPads};
ghost use Rattle.of_action.specs.Reading.{Gives, Tells, IsLength, table_length, length_at, action_of, action_at, actions_of};

use crate::action::Action;
use crate::fault::{ActionFault, ActionKind};
use crate::list::ActionList;
use crate::opaque::Opaque;
use of_types::{ByteList, actions, get_array, get_u8, get_u16, get_u32};
use std::alloc::{AllocError, Global};

#[tactic(auto, unfolding(crate::specs::Reading::table_length))]
fn table_length_of(kind: u16, len: u16) -> Option<u16>
    ensures { result ≡ table_length kind len }
{
    match kind {
        actions::SET_DL_SRC | actions::SET_DL_DST | actions::ENQUEUE => Some(16),
        0..=10 => Some(8),
        actions::VENDOR => Some(len),
        _ => None,
    }
}

/// The length of the action at the front.
#[tactic(auto, unfolding(crate::specs::Reading::length_at, crate::specs::Reading::table_length))]
fn length_of(bytes: &[u8]) -> Result<usize, ActionKind>
    ensures exact { result ≡ length_at bytes.now }
    ensures within { IfOk result (IsLength (number_at 2 0 bytes.now) (length bytes.now)) }
{
    if bytes.len() < 4 {
        return Err(ActionKind::BadLen);
    }
    let len = get_u16(bytes, 2);
    if len < 8 || len % 8 != 0 || bytes.len() < len as usize {
        return Err(ActionKind::BadLen);
    }
    match table_length_of(get_u16(bytes, 0), len) {
        None => Err(ActionKind::BadType),
        Some(wanted) if wanted == len => Ok(len as usize),
        Some(_) => Err(ActionKind::BadLen),
    }
}

/// The action that an action's bytes spell.
#[tactic(auto, unfolding(crate::specs::Reading::action_of))]
fn value_of(alloc: Global, kind: u16, bytes: &[u8]) -> Result<Action, AllocError>
    requires { IsLength kind (length bytes.now) (length bytes.now) }
    ensures { IfOk result (λ action. action ≡ action_of kind bytes.now) }
{
    Ok(match kind {
        actions::OUTPUT => Action::Output {
            port: get_u16(bytes, 4),
            max_len: get_u16(bytes, 6),
        },
        actions::SET_VLAN_VID => Action::SetVlanVid(get_u16(bytes, 4)),
        actions::SET_VLAN_PCP => Action::SetVlanPcp(get_u8(bytes, 4)),
        actions::STRIP_VLAN => Action::StripVlan,
        actions::SET_DL_SRC => Action::SetDlSrc(get_array(bytes, 4)),
        actions::SET_DL_DST => Action::SetDlDst(get_array(bytes, 4)),
        actions::SET_NW_SRC => Action::SetNwSrc(get_u32(bytes, 4)),
        actions::SET_NW_DST => Action::SetNwDst(get_u32(bytes, 4)),
        actions::SET_NW_TOS => Action::SetNwTos(get_u8(bytes, 4)),
        actions::SET_TP_SRC => Action::SetTpSrc(get_u16(bytes, 4)),
        actions::SET_TP_DST => Action::SetTpDst(get_u16(bytes, 4)),
        actions::ENQUEUE => Action::Enqueue {
            port: get_u16(bytes, 4),
            queue: get_u32(bytes, 12),
        },
        _ => Action::Vendor(Opaque::from_list(ByteList::from_slice(alloc, &bytes[4..])?)),
    })
}

/// The action at offset `place`, and its length.
#[tactic(auto, unfolding(crate::specs::Reading::action_at))]
fn next_action(alloc: Global, bytes: &[u8], place: usize) -> Result<(Action, usize), ActionFault>
    requires { place ≤ length bytes.now }
    ensures exact { Gives (λ next. next) result (action_at place (drop place bytes.now)) }
    ensures within { IfOk result (λ next. (8 ≤ next.1) × (place + next.1 ≤ length bytes.now)) }
{
    let rest = &bytes[place..];
    match length_of(rest) {
        Err(kind) => Err(ActionFault::Bad { place, kind }),
        Ok(len) => {
            let action = value_of(alloc, get_u16(rest, 0), &rest[..len])?;
            Ok((action, len))
        }
    }
}

fn list_of(alloc: Global, bytes: &[u8]) -> Result<ActionList, ActionFault>
    ensures { Gives (λ list. list) result (actions_of bytes.now) }
{
    let mut actions = Vec::new(alloc);
    let mut place = 0;
    while place < bytes.len() {
        let (action, len) = next_action(alloc, bytes, place)?;
        actions.push(action)?;
        place += len;
    }
    Ok(ActionList::from_vec(actions))
}

/// Reads the actions that the bytes spell, all of the bytes. `Bad` has the offset at which the first action that
/// is at fault begins, and what is wrong with it; `NoMemory` where there is no memory for the list.
pub fn decode_list(alloc: Global, bytes: &[u8]) -> Result<ActionList, ActionFault>
    // The value or the first fault, unless memory runs out.
    ensures exact { Gives (λ list. list) result (actions_of bytes.now) }
    // What is read is in the grammar, and the bytes spell it.
    ensures found { IfOk result (λ list. AreActions list × Spell list bytes.now) }
    // What is in the grammar is read, unless memory runs out.
    ensures only { (list : List Action) → AreActions list → Spell list bytes.now
        → Gives (λ list. list) result (Ok list) }
{
    list_of(alloc, bytes)
}

/// Answers as `decode_list` does, without the actions; takes no memory and never answers `NoMemory`.
pub fn check_list(bytes: &[u8]) -> Result<(), ActionFault>
    ensures { Tells result (actions_of bytes.now) }
{
    let mut place = 0;
    while place < bytes.len() {
        match length_of(&bytes[place..]) {
            Err(kind) => return Err(ActionFault::Bad { place, kind }),
            Ok(len) => place += len,
        }
    }
    Ok(())
}

/// States the laws of lists: what is written is spelled so and is read again, bytes spell one list at most, and
/// what was read is written as it was but in pads.
pub fn laws_of_lists()
    ensures written { (list : List Action) → AreActions list → Spell list (list_bytes list) }
    ensures again { (list : List Action) → AreActions list → actions_of (list_bytes list) ≡ Ok list }
    ensures one_reading { (list others : List Action) (bytes : List ℕ) → AreActions list → AreActions others
        → Spell list bytes → Spell others bytes → list ≡ others }
    ensures rewritten { (bytes : List ℕ) (list : List Action) → IsBytes bytes → actions_of bytes ≡ Ok list
        → SameButPads list bytes (list_bytes list) }
{}

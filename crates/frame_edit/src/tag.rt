//! The VLAN tag written, inserted and removed (IEEE 802.1Q, 9).

ghost use Rattle.std.specs.Prelude.{◌≡◌, ◌≤◌, OnOk, vec_len};
ghost use Rattle.frame_edit.specs.Edits.{tagged, with_control, with_identifier, with_priority, without_tag};

use eth_key::{ETHERNET_LEN, is_tagged};
use of_types::{get_u16, put_u16};
use std::alloc::AllocError;

/// The offset of the tag, behind the addresses.
const TAG: usize = 12;

/// The offset of its control information: priority and identifier.
const CONTROL: usize = 14;

#[tactic(auto, using(crate::specs::laws::TagLaws::insert_here), unfolding(of_types::specs::Fields::number_bytes))]
fn insert_tag(frame: &mut Vec<u8>, control: u16) -> Result<(), AllocError>
    requires { 14 ≤ vec_len frame.old }
    ensures { OnOk result (frame.new.items ≡ tagged control frame.old.items) }
{
    let [high, low] = control.to_be_bytes();
    frame.insert(TAG, low)?;
    frame.insert(TAG, high)?;
    frame.insert(TAG, 0x00)?;
    frame.insert(TAG, 0x81)?;
    Ok(())
}

#[tactic(auto, unfolding(crate::specs::Edits::with_control))]
pub(crate) fn set_identifier(frame: &mut Vec<u8>, vid: u16) -> Result<(), AllocError>
    ensures { OnOk result (frame.new.items ≡ with_control (with_identifier vid) frame.old.items) }
{
    if is_tagged(frame.as_slice()) {
        let control = get_u16(frame.as_slice(), CONTROL);
        put_u16(
            frame.as_mut_slice(),
            CONTROL,
            (control >> 12 << 12) | (vid & 0x0fff),
        );
    } else if frame.len() >= ETHERNET_LEN {
        insert_tag(frame, vid & 0x0fff)?;
    }
    Ok(())
}

#[tactic(auto, unfolding(crate::specs::Edits::with_control))]
pub(crate) fn set_priority(frame: &mut Vec<u8>, pcp: u8) -> Result<(), AllocError>
    ensures { OnOk result (frame.new.items ≡ with_control (with_priority pcp) frame.old.items) }
{
    let high = u16::from(pcp & 0x07) << 13;
    if is_tagged(frame.as_slice()) {
        let control = get_u16(frame.as_slice(), CONTROL);
        put_u16(frame.as_mut_slice(), CONTROL, high | (control & 0x1fff));
    } else if frame.len() >= ETHERNET_LEN {
        insert_tag(frame, high)?;
    }
    Ok(())
}

#[tactic(auto, using(crate::specs::laws::TagLaws::remove_here), unfolding(crate::specs::Edits::without_tag))]
pub(crate) fn strip(frame: &mut Vec<u8>)
    ensures { frame.new.items ≡ without_tag frame.old.items }
{
    if is_tagged(frame.as_slice()) {
        frame.remove(TAG);
        frame.remove(TAG);
        frame.remove(TAG);
        frame.remove(TAG);
    }
}

//! Which rows a packet may take.

ghost use Rattle.std.specs.Prelude.{◌≡◌, Option, Some, None};
ghost use Rattle.of_match.specs.Covers.{agrees, agrees_on_prefix};
ghost use Rattle.of_match.specs.Key.{number};
ghost use Rattle.net_guard.specs.Taking.{takes_value, may_take, has_no_other, has_no_link_field, has_no_network_field, has_no_unguarded, surely_takes};
ghost use Rattle.std.specs.Option.{option_map};

use crate::scope::Scope;
use guard_rule::GuardField;
use of_match::Fields;

/// An Ethernet address as a number, its first byte the highest.
#[tactic(auto, unfolding(of_match::specs::Key::number))]
pub(crate) fn address_number(address: [u8; 6]) -> u64
    ensures { result ≡ number address }
{
    let [a, b, c, d, e, f] = address;
    let high = u64::from(a) * 65_536 + u64::from(b) * 256 + u64::from(c);
    let low = u64::from(d) * 65_536 + u64::from(e) * 256 + u64::from(f);
    high * 16_777_216 + low
}

fn half_agrees(field: Option<u16>, value: u16) -> bool
    ensures { result ≡ agrees field value }
{
    match field {
        None => true,
        Some(wanted) => value == wanted,
    }
}

fn address_agrees(field: Option<[u8; 6]>, value: u64) -> bool
    ensures { result ≡ agrees (option_map number field) value }
{
    match field {
        None => true,
        Some(wanted) => value == address_number(wanted),
    }
}

fn prefix_agrees(field: Option<(u32, u8)>, address: u64) -> bool
    ensures { result ≡ agrees_on_prefix field address }
{
    match field {
        None => true,
        Some((wanted, len)) => {
            let ignored = 32u32.saturating_sub(u32::from(len));
            address >> ignored == u64::from(wanted) >> ignored
        }
    }
}

/// Tells whether fields take a value of the guarded field.
#[tactic(auto, unfolding(crate::specs::Taking::takes_value))]
fn takes_value(field: GuardField, value: Option<u64>, f: &Fields) -> bool
    ensures { result ≡ takes_value field value f.now }
{
    match (field, value) {
        (GuardField::DlDst, None) => f.dl_dst.is_none(),
        (GuardField::DlDst, Some(a)) => address_agrees(f.dl_dst, a),
        (GuardField::NwDst, None) => f.nw_dst.is_none() && half_agrees(f.dl_type, 0x0800),
        (GuardField::NwDst, Some(a)) => prefix_agrees(f.nw_dst, a)
            && half_agrees(f.dl_type, 0x0800),
    }
}

/// Tells whether a packet that comes in at a port may take the row of these fields.
#[tactic(auto, unfolding(crate::specs::Taking::may_take))]
pub(crate) fn may_take(field: GuardField, scope: Scope, port: u16, f: &Fields) -> bool
    ensures { result ≡ may_take field scope port f.now }
{
    match scope {
        Scope::Every => true,
        Scope::Value(value) => half_agrees(f.in_port, port) && takes_value(field, value, f),
    }
}

fn has_no_link_field(f: &Fields) -> bool
    ensures { result ≡ has_no_link_field f.now }
{
    f.dl_src.is_none() && f.dl_vlan.is_none() && f.dl_vlan_pcp.is_none()
}

fn has_no_network_field(f: &Fields) -> bool
    ensures { result ≡ has_no_network_field f.now }
{
    f.nw_tos.is_none()
        && f.nw_proto.is_none()
        && f.nw_src.is_none()
        && f.tp_src.is_none()
        && f.tp_dst.is_none()
}

fn has_no_unguarded(field: GuardField, f: &Fields) -> bool
    ensures { result ≡ has_no_unguarded field f.now }
{
    match field {
        GuardField::DlDst => f.dl_type.is_none() && f.nw_dst.is_none(),
        GuardField::NwDst => f.dl_dst.is_none(),
    }
}

/// Tells whether a packet that may take the row of these fields does, whatever its other fields are.
#[tactic(auto, unfolding(crate::specs::Taking::has_no_other))]
fn has_no_other(field: GuardField, f: &Fields) -> bool
    ensures { result ≡ has_no_other field f.now }
{
    has_no_link_field(f) && has_no_network_field(f) && has_no_unguarded(field, f)
}

/// Tells whether a packet that comes in at a port surely takes the row of these fields, if none before it.
#[tactic(auto, unfolding(crate::specs::Taking::surely_takes))]
pub(crate) fn surely_takes(field: GuardField, scope: Scope, port: u16, f: &Fields) -> bool
    ensures { result ≡ surely_takes field scope port f.now }
{
    match scope {
        Scope::Every => false,
        Scope::Value(_) => may_take(field, scope, port, f) && has_no_other(field, f),
    }
}

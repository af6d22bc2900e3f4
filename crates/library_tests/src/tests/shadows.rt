//! Each allocating call once with ample memory.

ghost use Rattle.std.specs.Prelude.{IfOk, IsSome};
ghost use Rattle.shadow_tables.specs.Kept.{kept_at};

use super::key;
use flow_table::ViewRow;
use of_action::ActionList;
use of_types::PortDesc;
use shadow_tables::Shadows;
use std::alloc::{AllocError, Global};
use std::test::Fail;

/// A port of which all is 0 but the number.
const FIRST: PortDesc = PortDesc {
    port_no: 1,
    hw_addr: [0; 6],
    name: [0; 16],
    config: 0,
    state: 0,
    curr: 0,
    advertised: 0,
    supported: 0,
    peer: 0,
};

const SECOND: PortDesc = PortDesc {
    port_no: 2,
    ..FIRST
};

/// The shadows of switch 9, which joined with these ports.
fn joined(alloc: Global, ports: &[PortDesc]) -> Result<Shadows, AllocError>
    ensures { IfOk result (λ shadows. IsSome (kept_at 9 shadows)) }
{
    let mut shadows = Shadows::new(alloc)?;
    shadows.join(9, ports)?;
    Ok(shadows)
}

/// Whether a switch has both of its ports until it leaves, and then gives them.
fn knows_ports(alloc: Global) -> Result<bool, AllocError> {
    let mut shadows = joined(alloc, &[SECOND])?;
    shadows.port_status(9, 0, &FIRST)?;
    let has_both = matches!(shadows.ports(9), Some(ports) if ports.len() == 2);
    let gives_both = match shadows.leave(9) {
        Some(ports) => ports.len() == 2,
        None => false,
    };
    Ok(has_both && gives_both && shadows.leave(9).is_none())
}

#[test]
fn takes_a_switch_in(rt: HostRuntime) -> Result<(), Fail> {
    assert!(rt; knows_ports(rt.alloc())?);
    Ok(())
}

/// Whether the table of switch 9 has so many rows.
fn has_rows(shadows: &Shadows, count: usize) -> bool {
    match shadows.view(9) {
        Some(view) => view.rows.len() == count,
        None => false,
    }
}

/// Whether a row stands from when it is put in to when it is taken out.
fn keeps_row(alloc: Global) -> Result<bool, AllocError> {
    let mut shadows = joined(alloc, &[])?;
    shadows.reserve(9, 1)?;
    let row = ViewRow {
        key: key(),
        actions: ActionList::new(alloc),
        cookie: 0,
        idle: 0,
        hard: 0,
        flags: 0,
    };
    shadows.put(9, row);
    let stands = has_rows(&shadows, 1);
    shadows.remove(9, &key());
    Ok(stands && has_rows(&shadows, 0))
}

#[test]
fn keeps_rows(rt: HostRuntime) -> Result<(), Fail> {
    assert!(rt; keeps_row(rt.alloc())?);
    Ok(())
}

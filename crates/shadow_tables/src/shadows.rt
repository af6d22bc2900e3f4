//! The shadows of all joined switches.

ghost use Rattle.std.specs.Prelude.{◌≡◌, ◌≤◌, [], length, None, Some, IsSome, IfSome, MatchOption, IfOk, OnOk, OnErr};
ghost use Rattle.std.specs.List.{insert};
ghost use Rattle.flow_table.specs.Sorted.{AreRows, without_place};
ghost use Rattle.flow_table.specs.Corrected.{row_at};
ghost use Rattle.flow_table.specs.View.{plain, plains};
ghost use Rattle.shadow_tables.specs.Known.{put_row, drop_row, tell_port, configure, views};
ghost use Rattle.shadow_tables.specs.Kept.{AreKept, kept_place, kept_at, known, ports_at, rows_at, spare_at, view_at, Changes, Keeps, Joins};
ghost use Rattle.shadow_tables.specs.InStep.{AreTables};

use crate::ports::{PortTable, configure_at, tell_at};
use crate::tables::{find, gap, place, position, put_at, remove_at, reserve_at};
use flow_table::{TableView, ViewList, ViewRow};
use of_match::Key;
use of_types::{Dpid, PortDesc, PortNo};
use of_wire::PortList;
use std::alloc::{AllocError, Global};
use std::marker::Model;

/// The table of each joined switch as applications see it, with its known ports, by switch number ascending. Contracts see
/// the list of both, and how many rows more each table has room for.
///
/// Where memory is wanting nothing that is known changes, and no table has less room for rows.
#[derive(Drop, Debug)]
pub struct Shadows {
    alloc: Global,
    views: Vec<TableView>,
    ports: Vec<PortTable>,
}

impl Model for Shadows {
    ghost use Rattle.std.specs.Prelude.{List};
    ghost use Rattle.shadow_tables.specs.Kept.{Kept};
    ghost use Rattle.shadow_tables.specs.Inside.{kept_in, IsShadows};

    ghost Value = { List Kept };

    ghost view = { kept_in };

    ghost invariant = { IsShadows };
}

/// Puts the table and the ports of a switch in their places, or neither.
fn insert(
    views: &mut Vec<TableView>,
    all: &mut Vec<PortTable>,
    at: usize,
    view: TableView,
    ports: PortTable,
) -> Result<(), AllocError>
    requires within { at ≤ length views.old.items }
    requires in_step { length views.old.items ≡ length all.old.items }
    ensures views { OnOk result (views.new.items ≡ insert views.old.items at view) }
    ensures ports { OnOk result (all.new.items ≡ insert all.old.items at ports) }
    ensures views_err { OnErr result (views.new.items ≡ views.old.items) }
    ensures ports_err { OnErr result (all.new.items ≡ all.old.items) }
{
    views.reserve(1)?;
    all.insert(at, ports)?;
    views.insert(at, view)?;
    Ok(())
}

impl Shadows {
    /// Makes shadows of no switch; takes no memory.
    pub fn new(alloc: Global) -> Result<Shadows, AllocError>
        ensures { IfOk result (λ s. s ≡ []) }
    {
        Ok(Shadows {
            alloc,
            views: Vec::new(alloc),
            ports: Vec::new(alloc),
        })
    }

    /// Takes a switch in with these ports and no rows. It is not joined yet.
    pub fn join(&mut self, dpid: Dpid, ports: &[PortDesc]) -> Result<(), AllocError>
        requires { kept_at dpid self.old ≡ None }
        ensures ok { OnOk result (Joins dpid ports.now self.old self.new) }
        ensures err { OnErr result (self.new ≡ self.old) }
    {
        let ports = PortTable::from_vec(Vec::from_slice(self.alloc, ports)?);
        let at = gap(&self.views, dpid);
        let view = TableView {
            dpid,
            rows: ViewList::new(self.alloc),
        };
        insert(&mut self.views, &mut self.ports, at, view, ports)
    }

    /// Forgets a switch and gives its known ports, `None` exactly where it is not joined; takes no memory.
    pub fn leave(&mut self, dpid: Dpid) -> Option<PortList>
        ensures ports { result ≡ ports_at dpid self.old }
        ensures rest { self.new ≡ without_place kept_place dpid self.old }
    {
        match position(&self.views, dpid) {
            Ok(at) => {
                self.views.remove(at);
                Some(self.ports.remove(at).into_list())
            }
            Err(_) => None,
        }
    }

    /// Lends the tables, by switch number ascending.
    pub fn views(&self) -> &[TableView]
        ensures all { plains result.now ≡ views (known self.now) }
        ensures in_order { AreKept self.now }
        ensures rows { AreTables result.now }
    {
        &self.views
    }

    /// Lends the table of a switch, `None` exactly where it is not joined. Its rows are in key order.
    pub fn view(&self, dpid: Dpid) -> Option<&TableView>
        ensures found { MatchOption result (view_at dpid self.now ≡ None) (λ v. view_at dpid self.now ≡ Some (plain v.now)) }
        ensures in_order { IfSome result (λ v. AreRows v.now.rows.rows) }
    {
        find(&self.views, dpid)
    }

    /// Lends the known ports of a switch, `None` exactly where it is not joined.
    pub fn ports(&self, dpid: Dpid) -> Option<&[PortDesc]>
        ensures { MatchOption result (ports_at dpid self.now ≡ None) (λ ports. ports_at dpid self.now ≡ Some ports.now) }
    {
        match position(&self.views, dpid) {
            Ok(at) => Some(self.ports[at].as_slice()),
            Err(_) => None,
        }
    }

    /// Changes the known ports of a joined switch as a PORT_STATUS tells: one that is gone (1) goes, another one is put in
    /// by its number, in place of the one that has it.
    pub fn port_status(&mut self, dpid: Dpid, reason: u8, port: &PortDesc) -> Result<(), AllocError>
        requires { IsSome (kept_at dpid self.old) }
        ensures ok { OnOk result (Changes dpid (tell_port reason port.now) self.old self.new) }
        ensures err { OnErr result (Keeps self.old self.new) }
    {
        let at = place(&self.views, dpid);
        tell_at(&mut self.ports, at, reason, port)
    }

    /// Sets the config of a known port of a joined switch; takes no memory.
    pub fn set_config(&mut self, dpid: Dpid, port: PortNo, config: u32)
        requires { IsSome (kept_at dpid self.old) }
        ensures { Changes dpid (configure port config) self.old self.new }
    {
        let at = place(&self.views, dpid);
        configure_at(&mut self.ports, at, port, config);
    }

    /// Makes room for so many rows more of a joined switch.
    pub fn reserve(&mut self, dpid: Dpid, rows: usize) -> Result<(), AllocError>
        requires { IsSome (kept_at dpid self.old) }
        ensures keeps { Keeps self.old self.new }
        ensures reserved { OnOk result (rows ≤ spare_at dpid self.new) }
    {
        let at = place(&self.views, dpid);
        reserve_at(&mut self.views, at, rows)
    }

    /// Puts a row in the table of a joined switch, in place of one with its key; takes no memory. A row at a new key needs
    /// room, which [`Shadows::reserve`] makes.
    pub fn put(&mut self, dpid: Dpid, row: ViewRow)
        requires joined { IsSome (kept_at dpid self.old) }
        requires room { row_at row.key (rows_at dpid self.old) ≡ None → 1 ≤ spare_at dpid self.old }
        ensures { Changes dpid (put_row row) self.old self.new }
    {
        let at = place(&self.views, dpid);
        put_at(&mut self.views, at, row);
    }

    /// Takes the row of a key out of the table of a joined switch, if there is one; takes no memory.
    pub fn remove(&mut self, dpid: Dpid, key: &Key)
        requires { IsSome (kept_at dpid self.old) }
        ensures { Changes dpid (drop_row key.now) self.old self.new }
    {
        let at = place(&self.views, dpid);
        remove_at(&mut self.views, at, key);
    }
}

//! The end of a report: the tables of the joined switches, the applications, and how many events there were. A switch that is lost when it
//! is asked for its table is told in its place.

ghost use Rattle.std.specs.Prelude.{◌≡◌, [], ◌∷◌, List, length, map, None, Some, MatchOption, IsSome, IfOk, IfErr, OnOk, MatchResult};
ghost use Rattle.flow_table.specs.declared.view.ViewRow.{ViewRow};
ghost use Rattle.flow_table.specs.View.{plains};
ghost use Rattle.lego_model.specs.RunReport.{flow_line};
ghost use Rattle.net_txn.specs.Views.{rows_at};
ghost use Rattle.run_laws.specs.LastReport.{app_lines, engine_end};
ghost use Rattle.event_dispatch.specs.Passes.{PassesQuietly};
ghost use Rattle.event_dispatch.specs.Lines.{OnlyNotes};
ghost use Rattle.event_dispatch.specs.Plain.{IsPlainEnd};
ghost use Rattle.event_dispatch.specs.Shows.{application_of, engine_with};
ghost use Rattle.event_dispatch.specs.ReportEnd.{FindsPlace, FindsFlags, FlowsNoted, RowsNoted, RowsAsked, TableNoted, TableFails};
ghost use Rattle.event_dispatch.specs.ReportEnd.{TablesNoted, LastNoted, LastFails};

use crate::batch::is_joined;
use crate::engine_core::Core;
use crate::fault::Fault;
use crate::run::{Managed, Run};
use flow_table::{TableView, ViewList, ViewRow};
use of_match::Key;
use of_stats::{FlowRow, RowList};
use of_types::Dpid;
use outside::World;
use report_text::{app_line, end_line, flow_line, switch_line};
use std::alloc::AllocError;

/// Finds where the row of a key stands, from a position on.
fn place_from(rows: &[ViewRow], from: usize, key: &Key) -> Option<usize>
    ensures { FindsPlace from key.now rows.now result }
{
    for at in from..rows.len() {
        if rows[at].key == *key {
            return Some(at);
        }
    }
    None
}

/// Finds where the row of a key stands, from a position on, and if none stands there, from the first one on.
fn place_of(rows: &[ViewRow], from: usize, key: &Key) -> Option<usize>
    ensures { FindsPlace from key.now rows.now result }
{
    match place_from(rows, from, key) {
        Some(at) => Some(at),
        None => place_from(rows, 0, key),
    }
}

/// Finds the flags of the owner of an entry, and where the next one is looked for. Rows stand in key order. So do the entries of a
/// simulated switch; a real one may tell its entries in any order.
fn flags_from(rows: &[ViewRow], from: usize, key: &Key) -> (u16, usize)
    ensures { FindsFlags from key.now rows.now result }
{
    match place_of(rows, from, key) {
        Some(at) => (rows[at].flags, at + 1),
        None => (0, from),
    }
}

/// Finds the rows of a switch as their owner sees them, while it is joined.
fn rows_of(views: &[TableView], dpid: Dpid) -> Option<&ViewList>
    ensures { MatchOption result (rows_at dpid (plains views.now) ≡ None) (λ rows. rows_at dpid (plains views.now) ≡ Some rows.now.rows) }
{
    for view in views {
        if view.dpid == dpid {
            return Some(&view.rows);
        }
    }
    None
}

impl Core {
    /// Appends the line of an entry, with the flags with which its owner asked for it.
    fn note_flow(&mut self, row: &FlowRow, flags: u16) -> Result<(), AllocError>
        ensures { OnOk result (OnlyNotes (flow_line row.now flags) self.old self.new) }
    {
        let line = flow_line(self.alloc, row, flags)?;
        self.note(&line)
    }

    /// Finds the flags of the owner of an entry of a switch, and where the next one is looked for.
    fn flags_of(&self, dpid: Dpid, from: usize, key: &Key) -> (u16, usize)
        ensures { (rows : List ViewRow) → rows_at dpid self.now.net.views ≡ Some rows → FindsFlags from key.now rows result }
    {
        match rows_of(self.net.views(), dpid) {
            Some(rows) => flags_from(rows.as_slice(), from, key),
            None => (0, from),
        }
    }

    /// Appends the lines of the entries of a switch.
    fn note_flows(&mut self, dpid: Dpid, rows: &RowList) -> Result<(), AllocError>
        ensures { OnOk result (FlowsNoted dpid rows.now self.old self.new) }
    {
        let mut from = 0;
        for row in rows.as_slice() {
            let (flags, next) = self.flags_of(dpid, from, &row.key);
            from = next;
            self.note_flow(row, flags)?;
        }
        Ok(())
    }

    /// Appends how many entries a switch has, and each.
    fn note_rows(&mut self, dpid: Dpid, rows: &RowList) -> Result<(), AllocError>
        ensures { OnOk result (RowsNoted dpid rows.now self.old self.new) }
    {
        let line = switch_line(self.alloc, dpid, rows.len() as u64)?;
        self.note(&line)?;
        self.note_flows(dpid, rows)
    }

    /// Asks a joined switch for its entries. There are none where it is lost meanwhile.
    fn ask_rows<W: World>(&mut self, world: &mut W, dpid: Dpid) -> Result<Option<RowList>, Fault>
        requires { IsSome (rows_at dpid self.old.net.views) }
        ensures passes { PassesQuietly W.Tells (length self.old.store) (W.seen world.old) (W.seen world.new) self.old.net self.new.net result }
        ensures done { MatchResult result (λ rows. RowsAsked W.Tells dpid (W.seen world.old) (W.seen world.new) self.old self.new rows)
            (TableFails W.Tells (W.seen world.old) (W.seen world.new) self.old.net) }
        ensures parted { W.CanPart → IfErr result IsPlainEnd }
    {
        match self.net.rows(world, dpid) {
            Ok(rows) => Ok(rows),
            Err(fault) => Err(Fault::from(fault)),
        }
    }

    /// Asks a switch for its entries, and appends their lines. One that is not joined has none; of one that is lost meanwhile that is
    /// told.
    fn note_table<W: World>(&mut self, world: &mut W, dpid: Dpid) -> Result<(), Fault>
        ensures passes { PassesQuietly W.Tells (length self.old.store) (W.seen world.old) (W.seen world.new) self.old.net self.new.net result }
        ensures done { MatchResult result (λ _. TableNoted W.Tells dpid (W.seen world.old) (W.seen world.new) self.old self.new)
            (TableFails W.Tells (W.seen world.old) (W.seen world.new) self.old.net) }
        ensures parted { W.CanPart → IfErr result IsPlainEnd }
    {
        if !is_joined(&self.net, dpid) {
            return Ok(());
        }
        match self.ask_rows(world, dpid)? {
            Some(rows) => Ok(self.note_rows(dpid, &rows)?),
            None => Ok(self.note_loss(dpid)?),
        }
    }

    /// Lists the joined switches, by number.
    fn switches(&self) -> Result<Vec<Dpid>, AllocError>
        ensures { IfOk result (λ switches. switches.items ≡ map (λ v. v.dpid) self.now.net.views) }
    {
        let mut switches = Vec::new(self.alloc);
        for view in self.net.views() {
            switches.push(view.dpid)?;
        }
        Ok(switches)
    }

    /// Appends the tables of the joined switches, by number.
    fn note_tables<W: World>(&mut self, world: &mut W) -> Result<(), Fault>
        ensures passes { PassesQuietly W.Tells (length self.old.store) (W.seen world.old) (W.seen world.new) self.old.net self.new.net result }
        ensures done { MatchResult result (λ _. TablesNoted W.Tells (map (λ v. v.dpid) self.old.net.views) (W.seen world.old) (W.seen world.new) self.old self.new)
            (LastFails W.Tells (W.seen world.old) (W.seen world.new) self.old.net) }
        ensures parted { W.CanPart → IfErr result IsPlainEnd }
    {
        let switches = self.switches()?;
        for dpid in switches.iter() {
            self.note_table(world, *dpid)?;
        }
        Ok(())
    }

    /// Appends the line of an application.
    fn note_app(&mut self, app: &Managed<'_>) -> Result<(), AllocError>
        ensures { OnOk result (OnlyNotes (app_lines (application_of self.old.store app.now ∷ [])) self.old self.new) }
    {
        let line = app_line(
            self.alloc,
            app.rule.name.as_str(),
            app.state.alive,
            app.done,
            app.failed,
        )?;
        self.note(&line)
    }

    /// Appends the lines of applications, and of the end.
    fn note_end(&mut self, apps: &[Managed<'_>]) -> Result<(), AllocError>
        ensures { OnOk result (OnlyNotes (engine_end (engine_with self.old apps.now)) self.old self.new) }
    {
        for app in apps {
            self.note_app(app)?;
        }
        let last = end_line(self.alloc, self.net.moment(), self.events)?;
        self.note(&last)
    }
}

impl Run<'_> {
    /// Appends the last lines: the tables of the joined switches, by number, the applications, and the end.
    pub(crate) fn note_last<W: World>(&mut self, world: &mut W) -> Result<(), Fault>
        ensures passes { PassesQuietly W.Tells (length self.old.core.store) (W.seen world.old) (W.seen world.new) self.old.core.net self.new.core.net result }
        ensures apps { self.new.apps ≡ self.old.apps }

        // Where the world keeps its word, this is what the reference controller says at the end, and a fault is a plain one.
        ensures done { MatchResult result (λ _. LastNoted W.Tells (W.seen world.old) (W.seen world.new) self.old self.new)
            (LastFails W.Tells (W.seen world.old) (W.seen world.new) self.old.core.net) }
        ensures parted { W.CanPart → IfErr result IsPlainEnd }
    {
        self.core.note_tables(world)?;
        Ok(self.core.note_end(&self.apps)?)
    }
}

//! A flow table with an index of its groups.

ghost use Rattle.std.specs.Prelude.{◌≡◌, ◌≢◌, ◌↔◌, ◌<◌, ◌≤◌, ◌+◌, ◌-◌, ◌^◌, ℕ, [], length, slice_get, Some, IsTrue, IsOk, IfOk, OnOk, OnErr, if◌then◌else◌};
ghost use Rattle.flow_table.specs.declared.entry.Entry.{Entry};
ghost use Rattle.flow_table.specs.Table.{IsTable, IsMoment, IsPositionOf, empty_table, with_entry};
ghost use Rattle.flow_table.specs.Change.{Answers, is_delete, adds, refusal, changed, entries_after, notices_of};
ghost use Rattle.flow_table.specs.Hit.{best, counted, hit, with_counts};
ghost use Rattle.flow_table.specs.Expiry.{expire, expiry_notices};
ghost use Rattle.flow_table.specs.Rows.{positions};
ghost use Rattle.tuple_index.specs.Groups.{group_count, IsIndexed};

use crate::changing::{apply, count_told};
use crate::counting::{add_counts, count_at, hit, lookup};
use crate::describing::{find_refusal, is_adding};
use crate::expiring::{drop_due, due, expire};
use crate::grouping::count_groups;
use crate::selecting::select;
use flow_table::{ChangeFault, Entry, NoticeList};
use of_match::{Key, Match, PacketKey};
use of_types::PortNo;
use of_wire::FlowMod;
use std::alloc::{AllocError, Global};
use std::marker::Model;

/// A flow table as [`flow_table::Table`], with the same contract, whose entries are searched by groups of equal wildcards
/// (OpenFlow 1.0.0, 3.1 Flow Table and 3.4 Matching).
///
/// Beside the entries in key order it keeps their keys in the order of groups. Of each group one search by halves finds what
/// a packet may hit, and one among all entries the key that a strict command or an addition names. An addition or a removal
/// moves the entries behind it, as in a `Vec`. A MODIFY or DELETE with wildcards passes over the groups that it does not reach,
/// and ends where it meets no key of the others; the check for overlaps passes over the group of the new match. `expire`, `select`,
/// `add_counts`, and a MODIFY or DELETE with wildcards that meets an entry go over all entries.
#[derive(Debug, Drop)]
pub struct TupleTable {
    alloc: Global,
    entries: Vec<Entry>,
    index: Vec<Key>,
    next: u64,
}

impl Model for TupleTable {
    ghost use Rattle.flow_table.specs.Table.{TableState};
    ghost use Rattle.tuple_index.specs.Groups.{IsIndexed};

    ghost Value = { TableState };

    ghost view = { λ t. record { entries = t.entries.items; next = t.next } };

    ghost invariant = { λ t. IsIndexed t.index.items t.entries.items };
}

impl TupleTable {
    /// Makes an empty table; takes no memory.
    pub fn new(alloc: Global) -> Result<TupleTable, AllocError>
        ensures { IfOk result (λ t. t ≡ empty_table) }
    {
        Ok(TupleTable {
            alloc,
            entries: Vec::new(alloc),
            index: Vec::new(alloc),
            next: 0,
        })
    }

    /// Changes the table as a FLOW_MOD says, in a switch whose table takes `cap` entries (OpenFlow 1.0.0, 4.6
    /// Flow Table Modification Messages), and gives the notices of removed entries, in key order.
    ///
    /// Buffer, EMERG and which actions the switch knows are not looked at. `Refused` is the first of
    /// BAD_COMMAND, OVERLAP and ALL_TABLES_FULL that stands against the change. A DELETE that gives no notice
    /// takes no memory.
    pub fn change(&mut self, m: &FlowMod, now: u64, cap: u32) -> Result<NoticeList, ChangeFault>
        requires serials { self.old.next < 2 ^ 64 - 1 }
        ensures answer { Answers result (refusal cap m.now self.old.entries) (notices_of now m.now self.old.entries) }
        ensures ok { OnOk result (self.new ≡ changed now m.now self.old) }
        ensures err { OnErr result (self.new ≡ self.old) }
        ensures rise { self.new.next ≤ self.old.next + 1 }
        ensures without_notices { IsTrue (is_delete m.now) → notices_of now m.now self.old.entries ≡ [] → IsOk result }
    {
        change_entries(
            self.alloc,
            &mut self.entries,
            &mut self.index,
            &mut self.next,
            m,
            now,
            cap,
        )
    }

    /// Counts the notices that `change` gives for a FLOW_MOD that is not refused; takes no memory.
    pub fn count_told(&self, m: &FlowMod) -> usize
        ensures { (now : ℕ) → result ≡ length (notices_of now m.now self.now.entries) }
    {
        count_told(&self.entries, &self.index, m)
    }

    /// Finds where the entry stands that a packet with these fields hits (OpenFlow 1.0.0, 3.4 Matching): of those that
    /// cover it the one of greatest rank, and among equals the least key. `None` exactly where none covers it.
    pub fn lookup(&self, k: &PacketKey) -> Option<usize>
        ensures { IsPositionOf (best k.now self.now.entries) self.now.entries result }
    {
        lookup(&self.entries, &self.index, k)
    }

    /// Counts a packet of `len` bytes at the entry that it hits, and says where that entry stands.
    pub fn hit(&mut self, k: &PacketKey, len: u32, now: u64) -> Option<usize>
        ensures found { IsPositionOf (best k.now self.old.entries) self.old.entries result }
        ensures entries { self.new.entries ≡ hit k.now len now self.old.entries }
        ensures next { self.new.next ≡ self.old.next }
    {
        hit(&mut self.entries, &self.index, k, len, now)
    }

    /// Counts a packet of `len` bytes at the i-th entry in key order, counted from 0: as `hit` does where `lookup` finds that
    /// one, without a search.
    pub fn count_at(&mut self, i: usize, len: u32, now: u64)
        requires { i < length self.old.entries }
        ensures entries { (e : Entry) → slice_get self.old.entries i ≡ Some e → self.new.entries ≡ with_entry (counted len now e) self.old.entries }
        ensures next { self.new.next ≡ self.old.next }
    {
        count_at(&mut self.entries, &self.index, i, len, now);
    }

    /// Counts the entries.
    pub fn len(&self) -> usize
        ensures { result ≡ length self.now.entries }
    {
        self.entries.len()
    }

    /// Counts the groups of entries with equal wildcards; takes no memory.
    pub fn groups(&self) -> usize
        ensures { result ≡ group_count self.now.entries }
    {
        count_groups(&self.index)
    }

    /// Tells whether there is no entry.
    pub fn is_empty(&self) -> bool
        ensures { IsTrue result ↔ (self.now.entries ≡ []) }
    {
        self.entries.is_empty()
    }

    /// Lends the i-th entry in key order, counted from 0.
    pub fn at(&self, i: usize) -> &Entry
        requires { i < length self.now.entries }
        ensures { slice_get self.now.entries i ≡ Some result.now }
    {
        &self.entries[i]
    }

    /// Lends the entries, in key order.
    pub fn entries(&self) -> &[Entry]
        ensures all { result.now ≡ self.now.entries }
        ensures in_order { IsTable self.now.entries }
    {
        &self.entries
    }

    /// Removes each entry whose deadline is at the moment or before it (OpenFlow 1.0.0, 3.3 Flow Removal), and
    /// gives the notices of those that ask for one, in order of deadlines, then of keys.
    pub fn expire(&mut self, now: u64) -> Result<NoticeList, AllocError>
        requires { IsMoment now self.old.entries }
        ensures notices { IfOk result (λ notices. notices ≡ expiry_notices now self.old.entries) }
        ensures ok { OnOk result (self.new ≡ expire now self.old) }
        ensures err { OnErr result (self.new ≡ self.old) }
    {
        expire(self.alloc, &mut self.entries, &mut self.index, now)
    }

    /// Gives the notices that `expire` gives at this moment; the table stays. `AllocError` where there is no memory for
    /// them.
    pub fn due(&self, now: u64) -> Result<NoticeList, AllocError>
        requires { IsMoment now self.now.entries }
        ensures { IfOk result (λ notices. notices ≡ expiry_notices now self.now.entries) }
    {
        due(self.alloc, &self.entries, now)
    }

    /// Removes what `expire` removes at this moment, without notices; takes no memory.
    #[tactic(auto, unfolding(flow_table::specs::Expiry::expire))]
    pub fn remove_due(&mut self, now: u64)
        requires { IsMoment now self.old.entries }
        ensures { self.new ≡ expire now self.old }
    {
        drop_due(&mut self.entries, &mut self.index, now);
    }

    /// Finds where the entries stand whose match `m` subsumes and which, unless `out_port` is NONE, have an OUTPUT to
    /// it; ascending.
    pub fn select(&self, m: &Match, out_port: PortNo) -> Result<Vec<usize>, AllocError>
        ensures { IfOk result (λ places. places.items ≡ positions m.now out_port self.now.entries) }
    {
        select(self.alloc, &self.entries, m, out_port)
    }

    /// Adds so many packets and bytes to each entry of a priority, modulo 2^64.
    pub fn add_counts(&mut self, priority: u16, packets: u64, bytes: u64)
        ensures entries { self.new.entries ≡ with_counts priority packets bytes self.old.entries }
        ensures next { self.new.next ≡ self.old.next }
    {
        add_counts(&mut self.entries, &self.index, priority, packets, bytes)
    }
}

/// Changes entries of which the next new one gets the serial `next`.
fn change_entries(
    alloc: Global,
    entries: &mut Vec<Entry>,
    index: &mut Vec<Key>,
    next: &mut u64,
    m: &FlowMod,
    now: u64,
    cap: u32,
) -> Result<NoticeList, ChangeFault>
    requires indexed { IsIndexed index.old.items entries.old.items }
    requires serials { next.old < 2 ^ 64 - 1 }
    ensures answer { Answers result (refusal cap m.now entries.old.items) (notices_of now m.now entries.old.items) }
    ensures ok { OnOk result (entries.new.items ≡ entries_after now next.old m.now entries.old.items) }
    ensures next { OnOk result (next.new ≡ (if adds m.now entries.old.items then next.old + 1 else next.old)) }
    ensures err { OnErr result (entries.new.items ≡ entries.old.items) }
    ensures next_err { OnErr result (next.new ≡ next.old) }
    ensures rise { next.new ≤ next.old + 1 }
    ensures without_notices { OnErr result (IsTrue (is_delete m.now) → notices_of now m.now entries.old.items ≢ []) }
    ensures indexed { IsIndexed index.new.items entries.new.items }
{
    let adding = is_adding(m, entries, index);
    if let Some(error) = find_refusal(m, entries, index, cap, adding) {
        return Err(ChangeFault::Refused(error));
    }
    Ok(apply(alloc, entries, index, next, m, now, adding)?)
}

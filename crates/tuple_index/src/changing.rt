//! What a FLOW_MOD that is not refused does to the entries.

ghost use Rattle.std.specs.Prelude.{ℕ, Ok, Err, nat_lt, ◌≡◌, ◌≢◌, ◌≤◌, ◌<◌, ◌+◌, ◌-◌, ◌^◌, [], All, not, IsTrue, IfOk, OnOk, OnErr, if◌then◌else◌, map, filter, drop, length, slice_set, slice_index_or};
ghost use Rattle.std.specs.List.{count_by, list_any, remove};
ghost use Rattle.flow_table.specs.declared.entry.Entry.{Entry};
ghost use Rattle.flow_table.specs.Table.{IsTable, IsPlaceOf, place_of, has_key, keys, with_entry};
ghost use Rattle.flow_table.specs.Sorted.{Ascends, without_place};
ghost use Rattle.tuple_index.specs.Groups.{spot, IsIndexed};
ghost use Rattle.flow_table.specs.Change.{key_in, is_delete, adds, deletes, modified, new_entry, notice, entries_after, notices_of, means, tells};

use crate::copying::copy_entry;
use crate::describing::{
    asks, is_delete, is_deleted, is_described, is_met, is_modifying, key_of, position,
};
use crate::filing::{drop_key, put_key, sweep};
use flow_table::{Entry, Notice, NoticeList};
use of_action::{ActionList, copy_actions};
use of_match::Key;
use of_types::flows;
use of_wire::FlowMod;
use std::alloc::{AllocError, Global};

/// The entry that a FLOW_MOD puts in at a moment.
#[tactic(auto, unfolding(flow_table::specs::Change::new_entry))]
pub(crate) fn entry_of(
    alloc: Global,
    m: &FlowMod,
    now: u64,
    serial: u64,
) -> Result<Entry, AllocError>
    ensures { IfOk result (λ e. e ≡ new_entry now serial m.now) }
{
    Ok(Entry {
        key: key_of(m),
        actions: copy_actions(alloc, &m.actions)?,
        cookie: m.cookie,
        idle: m.idle,
        hard: m.hard,
        flags: flows::kept_flags(m.flags),
        installed: now,
        used: now,
        packets: 0,
        bytes: 0,
        serial,
    })
}

/// Puts an entry in place of one with its key.
fn replace(entries: &mut Vec<Entry>, at: usize, entry: Entry)
    requires { IsPlaceOf (place_of entry) entries.old.items (Ok at) }
    ensures entries { entries.new.items ≡ slice_set entries.old.items at entry }
    ensures keys { keys entries.new.items ≡ keys entries.old.items }
{
    let _there = entries[at].key.priority;
    let _here = entry.key.priority;
    entries[at] = entry;
}

/// Puts an entry in place of one with its key, and keeps the index.
fn put_over(entries: &mut Vec<Entry>, index: &[Key], at: usize, entry: Entry)
    requires indexed { IsIndexed index.now entries.old.items }
    requires at { IsPlaceOf (place_of entry) entries.old.items (Ok at) }
    ensures entries { entries.new.items ≡ with_entry entry entries.old.items }
    ensures indexed { IsIndexed index.now entries.new.items }
{
    replace(entries, at, entry);
}

/// Puts an entry of a new key in at its place, and its key into the index.
fn put_new(
    entries: &mut Vec<Entry>,
    index: &mut Vec<Key>,
    at: usize,
    entry: Entry,
) -> Result<(), AllocError>
    requires indexed { IsIndexed index.old.items entries.old.items }
    requires at { IsPlaceOf (place_of entry) entries.old.items (Err at) }
    ensures ok { OnOk result (entries.new.items ≡ with_entry entry entries.old.items) }
    ensures err { OnErr result (entries.new.items ≡ entries.old.items) }
    ensures indexed { IsIndexed index.new.items entries.new.items }
{
    let key = entry.key;
    index.reserve(1)?;
    entries.insert(at, entry)?;
    put_key(index, key);
    Ok(())
}

/// Puts an entry in at its place, in place of one with its key.
fn put(entries: &mut Vec<Entry>, index: &mut Vec<Key>, entry: Entry) -> Result<(), AllocError>
    requires { IsIndexed index.old.items entries.old.items }
    ensures ok { OnOk result (entries.new.items ≡ with_entry entry entries.old.items) }
    ensures err { OnErr result (entries.new.items ≡ entries.old.items) }
    ensures indexed { IsIndexed index.new.items entries.new.items }
{
    match position(entries, &entry.key) {
        Ok(at) => {
            put_over(entries, index, at, entry);
            Ok(())
        }
        Err(at) => put_new(entries, index, at, entry),
    }
}

/// Puts the entry of a FLOW_MOD in.
fn add(
    alloc: Global,
    entries: &mut Vec<Entry>,
    index: &mut Vec<Key>,
    m: &FlowMod,
    now: u64,
    serial: u64,
) -> Result<(), AllocError>
    requires { IsIndexed index.old.items entries.old.items }
    ensures ok { OnOk result (entries.new.items ≡ with_entry (new_entry now serial m.now) entries.old.items) }
    ensures err { OnErr result (entries.new.items ≡ entries.old.items) }
    ensures indexed { IsIndexed index.new.items entries.new.items }
{
    let entry = entry_of(alloc, m, now, serial)?;
    put(entries, index, entry)
}

/// As many copies of actions as a FLOW_MOD means entries.
fn copies(alloc: Global, entries: &[Entry], m: &FlowMod) -> Result<Vec<ActionList>, AllocError>
    ensures enough { IfOk result (λ cs. count_by (means m.now) entries.now ≤ length cs.items) }
    ensures same { IfOk result (λ cs. All (λ c. c ≡ m.now.actions) cs.items) }
{
    let mut copies = Vec::new(alloc);
    for entry in entries {
        if is_described(m, entry) {
            copies.push(copy_actions(alloc, &m.actions)?)?;
        }
    }
    Ok(copies)
}

/// Gives the i-th entry one of the copies of its actions, if a FLOW_MOD means the entry.
fn replace_at(entries: &mut Vec<Entry>, i: usize, m: &FlowMod, copies: &mut Vec<ActionList>)
    requires within { i < length entries.old.items }
    requires enough { count_by (means m.now) (drop i entries.old.items) ≤ length copies.old.items }
    requires same { All (λ c. c ≡ m.now.actions) copies.old.items }
    ensures entries { (e : Entry) → entries.new.items ≡ slice_set entries.old.items i (modified m.now (slice_index_or entries.old.items i e)) }
    ensures enough { count_by (means m.now) (drop (i + 1) entries.old.items) ≤ length copies.new.items }
    ensures same { All (λ c. c ≡ m.now.actions) copies.new.items }
{
    if is_described(m, &entries[i])
        && let Some(actions) = copies.pop()
    {
        entries[i].actions = actions;
    }
}

/// Gives each entry that a FLOW_MOD means one of the copies of its actions.
fn replace_actions(entries: &mut Vec<Entry>, m: &FlowMod, copies: Vec<ActionList>)
    requires enough { count_by (means m.now) entries.old.items ≤ length copies.items }
    requires same { All (λ c. c ≡ m.now.actions) copies.items }
    ensures { entries.new.items ≡ map (modified m.now) entries.old.items }
{
    let mut copies = copies;
    for i in 0..entries.len() {
        replace_at(entries, i, m, &mut copies);
    }
}

/// Gives the entry with the key of a FLOW_MOD its actions.
fn modify_one(alloc: Global, entries: &mut Vec<Entry>, m: &FlowMod) -> Result<(), AllocError>
    requires in_order { IsTable entries.old.items }
    requires strict { m.now.command ≡ 2 }
    ensures ok { OnOk result (entries.new.items ≡ map (modified m.now) entries.old.items) }
    ensures err { OnErr result (entries.new.items ≡ entries.old.items) }
{
    if let Ok(at) = position(entries, &key_of(m)) {
        entries[at].actions = copy_actions(alloc, &m.actions)?;
    }
    Ok(())
}

/// Gives the entries that a MODIFY means its actions.
fn modify(
    alloc: Global,
    entries: &mut Vec<Entry>,
    index: &[Key],
    m: &FlowMod,
) -> Result<(), AllocError>
    requires { IsIndexed index.now entries.old.items }
    ensures ok { OnOk result (entries.new.items ≡ map (modified m.now) entries.old.items) }
    ensures err { OnErr result (entries.new.items ≡ entries.old.items) }
    ensures indexed { IsIndexed index.now entries.new.items }
{
    if m.command == flows::MODIFY_STRICT {
        modify_one(alloc, entries, m)
    } else {
        let copies = copies(alloc, entries, m)?;
        replace_actions(entries, m, copies);
        Ok(())
    }
}

/// Whether the entry goes by a DELETE and asks for a notice.
pub(crate) fn is_told(m: &FlowMod, entry: &Entry) -> bool
    ensures { result ≡ tells m.now entry.now }
{
    is_deleted(m, entry) && asks(entry.flags)
}

/// The notice of an entry that a DELETE removes at a moment.
pub(crate) fn notice_of(alloc: Global, entry: &Entry, now: u64) -> Result<Notice, AllocError>
    ensures { IfOk result (λ n. n ≡ notice 2 now entry.now) }
{
    Ok(Notice {
        removed: copy_entry(alloc, entry)?,
        reason: flows::DELETED,
        duration: now.saturating_sub(entry.installed),
    })
}

/// The notices of those of the entries that a DELETE removes; where there is none, without memory.
fn notices_among(
    alloc: Global,
    entries: &[Entry],
    m: &FlowMod,
    now: u64,
) -> Result<Vec<Notice>, AllocError>
    ensures ok { IfOk result (λ ns. ns.items ≡ map (notice 2 now) (filter (tells m.now) entries.now)) }
    ensures without_notices { OnErr result (filter (tells m.now) entries.now ≢ []) }
{
    let mut notices = Vec::new(alloc);
    for entry in entries {
        if is_told(m, entry) {
            notices.push(notice_of(alloc, entry, now)?)?;
        }
    }
    Ok(notices)
}

/// The entries among which those stand that a FLOW_MOD means: all, or the one with its key.
fn candidates<'a>(entries: &'a [Entry], m: &FlowMod) -> &'a [Entry]
    requires { IsTable entries.now }
    ensures kept { filter (tells m.now) result.now ≡ filter (tells m.now) entries.now }
{
    if m.command != flows::DELETE_STRICT {
        return entries;
    }
    match position(entries, &key_of(m)) {
        Ok(at) => &entries[at..at + 1],
        Err(_) => &entries[0..0],
    }
}

/// Counts those of the entries that a DELETE removes and that ask for a notice.
fn count_among(entries: &[Entry], m: &FlowMod) -> usize
    ensures { result ≡ length (filter (tells m.now) entries.now) }
{
    let mut count = 0;
    for entry in entries {
        count += usize::from(is_told(m, entry));
    }
    count
}

/// Counts the notices of a FLOW_MOD that is not refused.
pub(crate) fn count_told(entries: &[Entry], index: &[Key], m: &FlowMod) -> usize
    requires { IsIndexed index.now entries.now }
    ensures { (now : ℕ) → result ≡ length (notices_of now m.now entries.now) }
{
    if is_delete(m) && is_met(m, entries, index) {
        count_among(candidates(entries, m), m)
    } else {
        0
    }
}

/// Removes the entry at a place, and its key, if a DELETE means it.
fn remove_at(entries: &mut Vec<Entry>, index: &mut Vec<Key>, at: usize, m: &FlowMod)
    requires in_order { Ascends spot 0 index.old.items }
    requires at { at < length entries.old.items }
    ensures entries { (e : Entry) → entries.new.items ≡ (if deletes m.now (slice_index_or entries.old.items at e) then remove entries.old.items at else entries.old.items) }
    ensures index { (e : Entry) → index.new.items ≡ (if deletes m.now (slice_index_or entries.old.items at e) then without_place spot (spot (key_in m.now)) index.old.items else index.old.items) }
{
    if is_deleted(m, &entries[at]) {
        entries.remove(at);
        drop_key(index, &key_of(m));
    }
}

/// Removes the entry with the key of a DELETE_STRICT, unless it sends to another port.
fn delete_one(entries: &mut Vec<Entry>, index: &mut Vec<Key>, m: &FlowMod)
    requires indexed { IsIndexed index.old.items entries.old.items }
    requires strict { m.now.command ≡ 4 }
    ensures entries { entries.new.items ≡ filter (λ e. not (deletes m.now e)) entries.old.items }
    ensures indexed { IsIndexed index.new.items entries.new.items }
{
    match position(entries, &key_of(m)) {
        Ok(at) => remove_at(entries, index, at, m),
        Err(_) => {}
    }
}

/// Takes the keys of removed entries out of the index; `before` is how many entries there were.
pub(crate) fn reindex(index: &mut Vec<Key>, entries: &[Entry], before: usize)
    requires { IsTable entries.now }
    ensures { index.new.items ≡ (if nat_lt (length entries.now) before then filter (λ k. list_any (has_key k) entries.now) index.old.items else index.old.items) }
{
    if entries.len() < before {
        sweep(index, entries);
    }
}

/// Removes the entries that a DELETE means.
fn delete_all(entries: &mut Vec<Entry>, index: &mut Vec<Key>, m: &FlowMod)
    requires { IsIndexed index.old.items entries.old.items }
    ensures entries { entries.new.items ≡ filter (λ e. not (deletes m.now e)) entries.old.items }
    ensures indexed { IsIndexed index.new.items entries.new.items }
{
    let before = entries.len();
    retain_others(entries, m);
    reindex(index, entries, before);
}

fn retain_others(entries: &mut Vec<Entry>, m: &FlowMod)
    ensures { entries.new.items ≡ filter (λ e. not (deletes m.now e)) entries.old.items }
{
    entries.retain(|entry| !is_deleted(m, entry));
}

/// Removes the entries that a DELETE means, and gives their notices.
fn delete(
    alloc: Global,
    entries: &mut Vec<Entry>,
    index: &mut Vec<Key>,
    m: &FlowMod,
    now: u64,
) -> Result<NoticeList, AllocError>
    requires { IsIndexed index.old.items entries.old.items }
    ensures notices { IfOk result (λ ns. ns ≡ map (notice 2 now) (filter (tells m.now) entries.old.items)) }
    ensures ok { OnOk result (entries.new.items ≡ filter (λ e. not (deletes m.now e)) entries.old.items) }
    ensures err { OnErr result (entries.new.items ≡ entries.old.items) }
    ensures without_notices { OnErr result (filter (tells m.now) entries.old.items ≢ []) }
    ensures indexed { IsIndexed index.new.items entries.new.items }
{
    if !is_met(m, entries, index) {
        return Ok(NoticeList::new(alloc));
    }
    let notices = notices_among(alloc, candidates(entries, m), m, now)?;
    if m.command == flows::DELETE_STRICT {
        delete_one(entries, index, m);
    } else {
        delete_all(entries, index, m);
    }
    Ok(NoticeList::from_vec(notices))
}

/// Does what a FLOW_MOD of a known command asks for; `adding` says whether it puts an entry in, whose serial
/// is then `next`.
pub(crate) fn apply(
    alloc: Global,
    entries: &mut Vec<Entry>,
    index: &mut Vec<Key>,
    next: &mut u64,
    m: &FlowMod,
    now: u64,
    adding: bool,
) -> Result<NoticeList, AllocError>
    requires indexed { IsIndexed index.old.items entries.old.items }
    requires adding { adding ≡ adds m.now entries.old.items }
    requires known { m.now.command ≤ 4 }
    requires serials { next.old < 2 ^ 64 - 1 }
    ensures notices { IfOk result (λ ns. ns ≡ notices_of now m.now entries.old.items) }
    ensures ok { OnOk result (entries.new.items ≡ entries_after now next.old m.now entries.old.items) }
    ensures next { OnOk result (next.new ≡ (if adds m.now entries.old.items then next.old + 1 else next.old)) }
    ensures err { OnErr result (entries.new.items ≡ entries.old.items) }
    ensures next_err { OnErr result (next.new ≡ next.old) }
    ensures rise { next.new ≤ next.old + 1 }
    ensures without_notices { OnErr result (IsTrue (is_delete m.now) → notices_of now m.now entries.old.items ≢ []) }
    ensures indexed { IsIndexed index.new.items entries.new.items }
{
    if adding {
        add(alloc, entries, index, m, now, *next)?;
        *next += 1;
        Ok(NoticeList::new(alloc))
    } else if is_modifying(m) {
        modify(alloc, entries, index, m)?;
        Ok(NoticeList::new(alloc))
    } else {
        delete(alloc, entries, index, m, now)
    }
}

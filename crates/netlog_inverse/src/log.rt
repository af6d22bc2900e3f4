//! The log of images.

ghost use Rattle.std.specs.Prelude.{◌≡◌, ◌↔◌, ℕ, ◌+◌, ◌≤◌, ◌<◌, [], ◌∷◌, ◌++◌, None, Some, length, take, drop, vec_capacity, vec_len, option_to_list, map, slice_get, IfOk, OnOk, IsNone};
ghost use Rattle.std.specs.List.{list_any};
ghost use Rattle.of_match.specs.Key.{key_number};
ghost use Rattle.flow_table.specs.declared.entry.Entry.{Entry};
ghost use Rattle.flow_table.specs.Table.{place_of};
ghost use Rattle.undo_laws.specs.Log.{old_entry};
ghost use Rattle.netlog_inverse.specs.Index.{IsIndex, key_in_put};
ghost use Rattle.netlog_inverse.specs.Log.{is_one_place, is_of, with_image, pushed, mended, changed_at, with_hard, with_lost_row, HasEntryAt};
ghost use Rattle.netlog_inverse.specs.Marks.{AreSetRightFor};
ghost use Rattle.netlog_inverse.specs.Mending.{set_right, IsLostOf};
ghost use Rattle.netlog_inverse.specs.Next.{message_of, IsNext};

use crate::image::{Image, Inverse, Logged, PutBack};
use crate::index::{Spot, bound, insert_spot, is_here, remove_spot};
use crate::mending::mend_images;
use crate::rows::is_same;
use crate::sending::{InverseKind, Wanted, message_of, next_in};
use flow_table::{Lost, ViewRow};
use keyed_rows::Lookup;
use of_match::Key;
use of_types::{ByteList, Dpid, put_u16};
use std::alloc::{AllocError, Global};
use std::marker::Model;
use std::mem::replace;

/// Where the hard timeout of an encoded FLOW_MOD stands.
const HARD_AT: usize = 60;

/// A position in a log: what is logged behind it was logged since the mark.
#[derive(Clone, Copy, Debug, PartialEq, Eq)]
pub struct Mark {
    at: usize,
}

/// The images of places of switches that were touched, oldest first. Contracts see the list, and for how many images more
/// there is room.
#[derive(Drop, Debug)]
pub struct Log {
    alloc: Global,
    logged: Vec<Logged>,
    index: Vec<Spot>,
}

impl Model for Log {
    ghost use Rattle.netlog_inverse.specs.Log.{LogState};
    ghost use Rattle.netlog_inverse.specs.Inside.{log_view, IsLog};

    ghost Value = { LogState };

    ghost view = { log_view };

    ghost invariant = { IsLog };
}

/// Tells whether two images are of one key, of one port, or both of the configuration.
fn is_one_place(a: &PutBack, b: &PutBack) -> bool
    ensures { result ≡ is_one_place a.now b.now }
{
    match (a, b) {
        (PutBack::Row { key: first, .. }, PutBack::Row { key: second, .. }) => is_same(
            first, second,
        ),
        (PutBack::Config { port: first, .. }, PutBack::Config { port: second, .. }) => {
            *first == *second
        }
        (PutBack::Settings { .. }, PutBack::Settings { .. }) => true,
        _ => false,
    }
}

fn is_of(dpid: Dpid, put: &PutBack, logged: &Logged) -> bool
    ensures { result ≡ is_of dpid put.now logged.now }
{
    logged.dpid == dpid && is_one_place(&logged.image.put, put)
}

/// Tells whether some images have one of a place of a switch.
fn has_image(logged: &[Logged], dpid: Dpid, put: &PutBack) -> bool
    ensures { result ≡ list_any (is_of dpid put.now) logged.now }
{
    logged.iter().any(|one| is_of(dpid, put, one))
}

fn behind(logged: &[Logged], mark: usize) -> &[Logged]
    requires { mark ≤ length logged.now }
    ensures { result.now ≡ drop mark logged.now }
{
    &logged[mark..]
}

/// Returns the key of an image, if it is of one.
pub(crate) fn key_of_put(put: &PutBack) -> Option<Key>
    ensures { result ≡ key_in_put put.now }
{
    match put {
        PutBack::Row { key, .. } => Some(*key),
        PutBack::Config { .. } => None,
        PutBack::Settings { .. } => None,
    }
}

/// Logs the image of a key, where the key has none since the mark.
#[tactic(auto, unfolding(crate::specs::Log::with_image))]
fn push_key(
    logged: &mut Vec<Logged>,
    index: &mut Vec<Spot>,
    mark: usize,
    dpid: Dpid,
    key: Key,
    image: Image,
)
    requires key { key_in_put image.put ≡ Some key }
    requires mark { mark ≤ vec_len logged.old }
    requires room { length (with_image mark dpid logged.old.items image) ≤ vec_capacity logged.old }
    requires index_room { length (with_image mark dpid logged.old.items image) ≤ vec_capacity index.old }
    requires index { IsIndex logged.old.items index.old.items }
    ensures items { logged.new.items ≡ with_image mark dpid logged.old.items image }
    ensures room { vec_capacity logged.new ≡ vec_capacity logged.old }
    ensures index_room { vec_capacity index.new ≡ vec_capacity index.old }
    ensures longer { vec_len logged.old ≤ vec_len logged.new }
    ensures index { IsIndex logged.new.items index.new.items }
{
    let at = logged.len();
    let place = bound(index, dpid, &key, mark);
    if !is_here(index, place, dpid, &key) {
        insert_spot(index, place, Spot { dpid, key, at });
        logged.push_reserved(Logged { dpid, image });
    }
}

/// Logs the image of a port or of the configuration, where it has none since the mark.
#[tactic(auto, unfolding(crate::specs::Log::with_image))]
fn push_other(
    logged: &mut Vec<Logged>,
    index: &mut Vec<Spot>,
    mark: usize,
    dpid: Dpid,
    image: Image,
)
    requires key { key_in_put image.put ≡ None }
    requires mark { mark ≤ vec_len logged.old }
    requires room { length (with_image mark dpid logged.old.items image) ≤ vec_capacity logged.old }
    requires index { IsIndex logged.old.items index.old.items }
    ensures items { logged.new.items ≡ with_image mark dpid logged.old.items image }
    ensures room { vec_capacity logged.new ≡ vec_capacity logged.old }
    ensures index_room { vec_capacity index.new ≡ vec_capacity index.old }
    ensures longer { vec_len logged.old ≤ vec_len logged.new }
    ensures index { IsIndex logged.new.items index.new.items }
{
    if !has_image(behind(logged, mark), dpid, &image.put) {
        logged.push_reserved(Logged { dpid, image });
    }
}

/// Logs an image, where its place has none since the mark.
fn push_first(
    logged: &mut Vec<Logged>,
    index: &mut Vec<Spot>,
    mark: usize,
    dpid: Dpid,
    image: Image,
)
    requires mark { mark ≤ vec_len logged.old }
    requires room { length (with_image mark dpid logged.old.items image) ≤ vec_capacity logged.old }
    requires index_room { length (with_image mark dpid logged.old.items image) ≤ vec_capacity index.old }
    requires index { IsIndex logged.old.items index.old.items }
    ensures items { logged.new.items ≡ with_image mark dpid logged.old.items image }
    ensures room { vec_capacity logged.new ≡ vec_capacity logged.old }
    ensures index_room { vec_capacity index.new ≡ vec_capacity index.old }
    ensures longer { vec_len logged.old ≤ vec_len logged.new }
    ensures index { IsIndex logged.new.items index.new.items }
{
    match key_of_put(&image.put) {
        Some(key) => push_key(logged, index, mark, dpid, key, image),
        None => push_other(logged, index, mark, dpid, image),
    }
}

/// Logs images, one after the other.
fn push_all(
    logged: &mut Vec<Logged>,
    index: &mut Vec<Spot>,
    mark: usize,
    dpid: Dpid,
    images: Vec<Image>,
)
    requires mark { mark ≤ vec_len logged.old }
    requires room { length (pushed mark dpid images.items logged.old.items) ≤ vec_capacity logged.old }
    requires index_room { length (pushed mark dpid images.items logged.old.items) ≤ vec_capacity index.old }
    requires index { IsIndex logged.old.items index.old.items }
    ensures items { logged.new.items ≡ pushed mark dpid images.items logged.old.items }
    ensures room { vec_capacity logged.new ≡ vec_capacity logged.old }
    ensures index_room { vec_capacity index.new ≡ vec_capacity index.old }
    ensures index { IsIndex logged.new.items index.new.items }
{
    for image in images {
        push_first(logged, index, mark, dpid, image);
    }
}

/// Takes the spot of an image out that was the last one behind these.
fn forget(logged: &[Logged], index: &mut Vec<Spot>, last: &Logged, at: usize)
    requires at { at ≡ length logged.now }
    requires index { IsIndex (logged.now ++ last.now ∷ []) index.old.items }
    ensures index { IsIndex logged.now index.new.items }
    ensures room { vec_capacity index.new ≡ vec_capacity index.old }
{
    match key_of_put(&last.image.put) {
        Some(key) => remove_spot(index, last.dpid, &key, at),
        None => {}
    }
}

/// Takes the last image out, if there is one.
fn pop_last(logged: &mut Vec<Logged>, index: &mut Vec<Spot>) -> Option<Logged>
    requires { IsIndex logged.old.items index.old.items }
    ensures items { logged.old.items ≡ logged.new.items ++ option_to_list result }
    ensures some { IsNone result ↔ (vec_len logged.old ≡ 0) }
    ensures room { vec_capacity logged.new ≡ vec_capacity logged.old }
    ensures index_room { vec_capacity index.new ≡ vec_capacity index.old }
    ensures index { IsIndex logged.new.items index.new.items }
{
    match logged.pop() {
        Some(last) => {
            let at = logged.len();
            forget(logged, index, &last, at);
            Some(last)
        }
        None => None,
    }
}

/// Drops the images behind a mark.
fn cut_all(logged: &mut Vec<Logged>, index: &mut Vec<Spot>, mark: usize)
    requires mark { mark ≤ vec_len logged.old }
    requires index { IsIndex logged.old.items index.old.items }
    ensures items { logged.new.items ≡ take mark logged.old.items }
    ensures room { vec_capacity logged.new ≡ vec_capacity logged.old }
    ensures index_room { vec_capacity index.new ≡ vec_capacity index.old }
    ensures index { IsIndex logged.new.items index.new.items }
{
    while mark < logged.len() {
        pop_last(logged, index);
    }
}

/// Writes a hard timeout into the bytes of a FLOW_MOD, if there are any.
fn put_hard(bytes: &mut [u8], hard: u16)
    ensures { bytes.new ≡ with_hard hard bytes.old }
{
    if HARD_AT + 2 <= bytes.len() {
        put_u16(bytes, HARD_AT, hard);
    }
}

/// Sets the hard timeout of an encoded FLOW_MOD, if there is one.
fn set_hard(alloc: Global, message: &mut ByteList, hard: u16)
    ensures { message.new ≡ with_hard hard message.old }
{
    let mut bytes = replace(message, ByteList::new(alloc)).into_vec();
    put_hard(&mut bytes, hard);
    *message = ByteList::from_vec(bytes);
}

fn set_lost(put: &mut PutBack, lost: Option<Lost>)
    ensures { put.new ≡ with_lost_row lost put.old }
{
    if let PutBack::Row { lost: before, .. } = put {
        *before = lost;
    }
}

#[tactic(auto, unfolding(crate::specs::Log::mended))]
pub(crate) fn mend_one(
    alloc: Global,
    logged: &mut Logged,
    lost: Option<Lost>,
    hard: u16,
    stands: bool,
)
    ensures { logged.new ≡ mended lost hard stands logged.old }
{
    set_lost(&mut logged.image.put, lost);
    set_hard(alloc, &mut logged.image.add, hard);
    logged.image.stands = stands;
}

fn mend_at(
    alloc: Global,
    logged: &mut [Logged],
    at: usize,
    lost: Option<Lost>,
    hard: u16,
    stands: bool,
)
    requires { HasEntryAt at logged.old }
    ensures { logged.new ≡ changed_at at (mended lost hard stands) logged.old }
{
    mend_one(alloc, &mut logged[at], lost, hard, stands);
}

/// Sets the image of an entry right.
fn mend_in(
    alloc: Global,
    logged: &mut Vec<Logged>,
    at: usize,
    lost: Option<Lost>,
    hard: u16,
    stands: bool,
)
    requires { HasEntryAt at logged.old.items }
    ensures items { logged.new.items ≡ changed_at at (mended lost hard stands) logged.old.items }
    ensures room { vec_capacity logged.new ≡ vec_capacity logged.old }
{
    mend_at(alloc, logged, at, lost, hard, stands);
}

impl Log {
    /// Makes an empty log; takes no memory.
    pub fn new(alloc: Global) -> Result<Log, AllocError>
        ensures { IfOk result (λ log. log.logged ≡ []) }
    {
        Ok(Log {
            alloc,
            logged: Vec::new(alloc),
            index: Vec::new(alloc),
        })
    }

    /// Makes room for so many images at least, and changes nothing else.
    pub fn reserve(&mut self, keys: usize) -> Result<(), AllocError>
        ensures logged { self.new.logged ≡ self.old.logged }
        ensures room { self.old.spare ≤ self.new.spare }
        ensures ok { OnOk result (keys ≤ self.new.spare) }
    {
        let Some(more) = keys.checked_add(self.logged.len() - self.index.len()) else {
            return Err(AllocError);
        };
        self.index.reserve(more)?;
        self.logged.reserve(keys)
    }

    /// Logs those images of an inverse whose key, port or configuration has none since the mark, which is the innermost
    /// one. Takes no memory: there is room for those images. An image of a key is looked for by halves, one of a port or of
    /// the configuration among all that was logged since the mark.
    pub fn push(&mut self, mark: Mark, dpid: Dpid, inverse: Inverse)
        requires mark { mark.at ≤ length self.old.logged }
        requires room { length (pushed mark.at dpid inverse.images.items self.old.logged) ≤ length self.old.logged + self.old.spare }
        ensures logged { self.new.logged ≡ pushed mark.at dpid inverse.images.items self.old.logged }
        ensures room { length self.new.logged + self.new.spare ≡ length self.old.logged + self.old.spare }
    {
        push_all(
            &mut self.logged,
            &mut self.index,
            mark.at,
            dpid,
            inverse.images,
        );
    }

    /// Marks the end of the log; takes no memory.
    pub fn mark(&self) -> Mark
        ensures { result.at ≡ length self.now.logged }
    {
        Mark {
            at: self.logged.len(),
        }
    }

    /// Lends what was logged since a mark, oldest first; takes no memory.
    pub fn since(&self, mark: Mark) -> &[Logged]
        requires { mark.at ≤ length self.now.logged }
        ensures { result.now ≡ drop mark.at self.now.logged }
    {
        behind(&self.logged, mark.at)
    }

    /// Takes the last image out that was logged since a mark; `None` exactly where nothing was. Takes no memory.
    pub fn pop(&mut self, mark: Mark) -> Option<Logged>
        requires { mark.at ≤ length self.old.logged }
        ensures logged { self.old.logged ≡ self.new.logged ++ option_to_list result }
        ensures none { IsNone result ↔ (length self.old.logged ≡ mark.at) }
        ensures room { length self.new.logged + self.new.spare ≡ length self.old.logged + self.old.spare }
    {
        if mark.at < self.logged.len() {
            pop_last(&mut self.logged, &mut self.index)
        } else {
            None
        }
    }

    /// Drops what was logged since a mark; takes no memory.
    pub fn cut(&mut self, mark: Mark)
        requires { mark.at ≤ length self.old.logged }
        ensures logged { self.new.logged ≡ take mark.at self.old.logged }
        ensures room { length self.new.logged + self.new.spare ≡ length self.old.logged + self.old.spare }
    {
        cut_all(&mut self.logged, &mut self.index, mark.at);
    }

    /// Sets an image of an entry right, at a position in the whole log: its cache row, the hard timeout of its ADD, and
    /// whether the entry at its key stands for it. Changes nothing else and takes no memory.
    pub fn mend(&mut self, at: usize, lost: Option<Lost>, hard: u16, stands: bool)
        requires { HasEntryAt at self.old.logged }
        ensures logged { self.new.logged ≡ changed_at at (mended lost hard stands) self.old.logged }
        ensures room { self.new.spare ≡ self.old.spare }
    {
        mend_in(self.alloc, &mut self.logged, at, lost, hard, stands);
    }

    /// Sets all images of a key right for which its entry stood, when this entry goes: their cache row, what is left of the
    /// hard timeout in their ADD, and that no entry stands for them. Changes nothing else and takes no memory; the images
    /// are found by halves. Since each mark they say then what they said and that the entry went.
    pub fn mend_key(&mut self, dpid: Dpid, key: &Key, lost: Lost)
        ensures logged { self.new.logged ≡ map (set_right dpid key.now lost) self.old.logged }
        ensures room { self.new.spare ≡ self.old.spare }
        ensures marks { (now mark : ℕ) (e : Entry) → place_of e ≡ key_number key.now → IsLostOf now dpid key.now lost e (drop mark self.old.logged)
            → AreSetRightFor now dpid (drop mark self.old.logged) (old_entry e ∷ []) (drop mark self.new.logged) }
    {
        mend_images(self.alloc, &mut self.logged, &self.index, dpid, key, lost);
    }

    /// Finds the first key behind another one, in key order, of which a message of a kind is wanted: by its first image since
    /// a mark, and by the row that stands there now. `None` where there is no more. Takes no memory; it looks at the images
    /// of the switch from that key on, each by halves.
    pub fn next_wanted(
        &self,
        mark: Mark,
        dpid: Dpid,
        rows: &Lookup<'_, ViewRow>,
        kind: InverseKind,
        after: Option<Key>,
    ) -> Option<Wanted>
        requires { mark.at ≤ length self.now.logged }
        ensures { IsNext (record { kind = kind; dpid = dpid; mark = mark.at; log = self.now.logged; rows = rows.now }) after result }
    {
        next_in(&self.logged, &self.index, mark.at, dpid, rows, kind, after)
    }

    /// Lends the message of a kind of the image at a position; takes no memory.
    pub fn message(&self, at: usize, kind: InverseKind) -> &[u8]
        requires { at < length self.now.logged }
        ensures { (l : Logged) → slice_get self.now.logged at ≡ Some l → result.now ≡ message_of kind l.image }
    {
        message_of(&self.logged[at].image, kind)
    }
}

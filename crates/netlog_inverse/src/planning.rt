//! What a change is about to change of its owner's view.

ghost use Rattle.std.specs.Prelude.{◌≡◌, ◌∷◌, [], MatchResult, IfOk, map, filter, option_to_list};
ghost use Rattle.flow_table.specs.Corrected.{row_at};
ghost use Rattle.netlog_inverse.specs.Messages.{hard_left};
ghost use Rattle.netlog_inverse.specs.Plans.{AreShowable, IsShowable, lost_of, nothing_stood, went, acted, went_by, acted_by, replaced, means_row, deletes_row, going, planned, missing, IsMissing, AreMade, Plans};

use crate::copying::{copy_counts, copy_row};
use crate::fault::PlanFault;
use crate::image::{Image, Inverse, PutBack};
use crate::messages::{add, delete, modify};
use crate::rows::{
    counts_of, find_stray, is_adding, is_deleted, is_described, is_modifying, key_of, row_of,
};
use flow_table::{Lost, LostRows, TableView, ViewRow};
use flow_timeouts::remaining;
use keyed_rows::Lookup;
use of_match::Key;
use of_stats::{FlowRow, RowList};
use of_types::ByteList;
use of_wire::FlowMod;
use std::alloc::{AllocError, Global};

/// Ages are counted modulo this number, as the wire has them.
const AGES: u64 = 1 << 32;

/// How much of an entry is lost when it goes: what its switch reports, with what was lost of it before.
fn lost_of(cached: Option<Lost>, hard: u16, counts: &FlowRow) -> Lost
    ensures { result ≡ lost_of cached hard counts.now }
{
    match cached {
        None => Lost {
            packets: counts.packets,
            bytes: counts.bytes,
            age: u64::from(counts.duration_sec),
            hard,
        },
        Some(lost) => Lost {
            packets: counts.packets.wrapping_add(lost.packets),
            bytes: counts.bytes.wrapping_add(lost.bytes),
            age: u64::from(counts.duration_sec).wrapping_add(lost.age) % AGES,
            hard,
        },
    }
}

/// What is left of a hard timeout at an age; one second where the age is not below it.
pub(crate) fn hard_left(hard: u16, age: u64) -> u16
    ensures { result ≡ hard_left hard age }
{
    if hard == 0 {
        0
    } else if age < u64::from(hard) {
        remaining(hard, age)
    } else {
        1
    }
}

/// Returns the image of a key at which nothing stands.
#[tactic(auto, unfolding(crate::specs::Plans::nothing_stood))]
fn nothing_stood(alloc: Global, key: &Key, lost: Option<Lost>) -> Result<Image, AllocError>
    ensures { IfOk result (λ i. i ≡ nothing_stood key.now lost) }
{
    Ok(Image {
        put: PutBack::Row {
            key: *key,
            row: None,
            lost,
        },
        delete: delete(alloc, key)?,
        modify: ByteList::new(alloc),
        add: ByteList::new(alloc),
        stands: false,
    })
}

/// Returns the image of an entry that goes, and of which so much is lost.
#[tactic(auto, unfolding(crate::specs::Plans::went))]
fn went(alloc: Global, row: &ViewRow, lost: Lost) -> Result<Image, AllocError>
    requires { IsShowable row.now }
    ensures { IfOk result (λ i. i ≡ went row.now lost) }
{
    let add = add(alloc, row, hard_left(row.hard, lost.age))?;
    Ok(Image {
        put: PutBack::Row {
            key: row.key,
            row: Some(copy_row(alloc, row)?),
            lost: Some(lost),
        },
        delete: ByteList::new(alloc),
        modify: ByteList::new(alloc),
        add,
        stands: false,
    })
}

/// Returns the image of an entry that gets other actions.
#[tactic(auto, unfolding(crate::specs::Plans::acted))]
fn acted(alloc: Global, row: &ViewRow, lost: Option<Lost>) -> Result<Image, AllocError>
    requires { IsShowable row.now }
    ensures { IfOk result (λ i. i ≡ acted row.now lost) }
{
    let modify = modify(alloc, row)?;
    let add = add(alloc, row, row.hard)?;
    Ok(Image {
        put: PutBack::Row {
            key: row.key,
            row: Some(copy_row(alloc, row)?),
            lost,
        },
        delete: ByteList::new(alloc),
        modify,
        add,
        stands: true,
    })
}

/// Returns the image of a key at which an entry is put in.
fn replaced<L: LostRows>(
    alloc: Global,
    key: &Key,
    view: &Lookup<'_, ViewRow>,
    cache: &L,
    rows: &Lookup<'_, FlowRow>,
) -> Result<Image, PlanFault>
    requires { AreShowable view.now }
    ensures { MatchResult result
        (λ i. AreMade (option_to_list (row_at key.now view.now)) rows.now (replaced (L.rows cache.now) rows.now key.now (row_at key.now view.now) ∷ []) (i ∷ []))
        (IsMissing (missing (option_to_list (row_at key.now view.now)) rows.now)) }
{
    let Some(row) = row_of(view, key) else {
        return Ok(nothing_stood(alloc, key, cache.get(key))?);
    };
    let Some(counts) = counts_of(rows, &row.key) else {
        return Err(PlanFault::NoRow(row.key));
    };
    Ok(went(alloc, row, lost_of(cache.get(&row.key), row.hard, counts))?)
}

/// Returns the images of the rows that get other actions.
fn all_acted<L: LostRows>(
    alloc: Global,
    m: &FlowMod,
    view: &[ViewRow],
    cache: &L,
) -> Result<Vec<Image>, AllocError>
    requires { AreShowable view.now }
    ensures { IfOk result (λ images. images.items ≡ map (acted_by (L.rows cache.now)) (filter (means_row m.now) view.now)) }
{
    let mut images = Vec::new(alloc);
    for row in view {
        if is_described(m, row) {
            images.push(acted(alloc, row, cache.get(&row.key))?)?;
        }
    }
    Ok(images)
}

/// Returns the images of the rows that a DELETE takes out.
fn all_went<L: LostRows>(
    alloc: Global,
    m: &FlowMod,
    view: &[ViewRow],
    cache: &L,
    rows: &Lookup<'_, FlowRow>,
) -> Result<Vec<Image>, PlanFault>
    requires { AreShowable view.now }
    ensures { MatchResult result
        (λ images. AreMade (filter (deletes_row m.now) view.now) rows.now (map (went_by (L.rows cache.now) rows.now) (filter (deletes_row m.now) view.now)) images.items)
        (IsMissing (missing (filter (deletes_row m.now) view.now) rows.now)) }
{
    let mut images = Vec::new(alloc);
    for row in view {
        if is_deleted(m, row) {
            let Some(counts) = counts_of(rows, &row.key) else {
                return Err(PlanFault::NoRow(row.key));
            };
            let lost = lost_of(cache.get(&row.key), row.hard, counts);
            images.push(went(alloc, row, lost)?)?;
        }
    }
    Ok(images)
}

/// Returns the images of all that a FLOW_MOD touches.
#[tactic(auto, unfolding(crate::specs::Plans::planned, crate::specs::Plans::going))]
fn images_of<L: LostRows>(
    alloc: Global,
    m: &FlowMod,
    view: &[ViewRow],
    keyed: &Lookup<'_, ViewRow>,
    cache: &L,
    rows: &Lookup<'_, FlowRow>,
) -> Result<Vec<Image>, PlanFault>
    requires showable { AreShowable view.now }
    requires same { keyed.now ≡ view.now }
    ensures { MatchResult result
        (λ images. AreMade (going m.now view.now) rows.now (planned m.now view.now (L.rows cache.now) rows.now) images.items)
        (IsMissing (missing (going m.now view.now) rows.now)) }
{
    if is_adding(m, view) {
        let image = replaced(alloc, &key_of(m), keyed, cache, rows)?;
        Ok(vec![in alloc; image]?)
    } else if is_modifying(m) {
        Ok(all_acted(alloc, m, view, cache)?)
    } else {
        all_went(alloc, m, view, cache, rows)
    }
}

/// Says what a FLOW_MOD is about to change of its owner's view: for each key that it touches, in key order, the image of
/// what stands there, with the messages that put it back.
///
/// `rows` is what the switch reports of the entries that the description means, `cache` what was lost of entries that were
/// put back before. Each row of the view has at most 65,432 bytes of actions. `NoRow` is the first key whose entry goes and
/// of which the switch reports nothing; `NoShadow` the first row of which the view has no entry. It takes a time in n log n
/// where view and `rows`, of together n rows, are in key order, as those of a conforming switch are, and `cache` finds a key
/// by halves; where one of them is not, its keys are looked for row by row.
pub fn plan<L: LostRows>(
    alloc: Global,
    m: &FlowMod,
    view: &TableView,
    cache: &L,
    rows: &RowList,
) -> Result<Inverse, PlanFault>
    requires { AreShowable view.now.rows.rows }
    ensures { Plans m.now view.now.rows.rows (L.rows cache.now) rows.now result }
{
    let view = view.rows.as_slice();
    let rows = rows.as_slice();
    let keyed = Lookup::new(view);
    let images = images_of(alloc, m, view, &keyed, cache, &Lookup::new(rows))?;
    match find_stray(rows, &keyed) {
        None => Ok(Inverse { images }),
        Some(row) => Err(PlanFault::NoShadow(copy_counts(alloc, row)?)),
    }
}

//! Trees that leave as groups.

ghost use Rattle.std.specs.Prelude.{◌≡◌, ◌+◌, ◌<◌, length, false, true, map, [], ◌∷◌, IfOk, OnOk, OnErr, IfSome, IfNone};
ghost use Rattle.std.specs.List.{list_all};
ghost use Rattle.txn_rows.specs.Grouping.{is_reported};
ghost use Rattle.txn_rows.specs.inside.Rows.{rows_below, rows_beside, rows_in_preorder, member_of_row, left_rows, LeftRows};

use crate::group::{Group, Grouping, Kind, Member, Members};
use crate::rows::{Row, empty_row};
use log_model::NoMemory;
use std::alloc::Global;
use std::mem;

/// Puts rows into preorder. Where they are in it already, this is one walk.
fn sort_rows(rows: &mut Vec<Row>) -> Result<(), NoMemory>
    ensures { OnOk result (rows.new.items ≡ rows_in_preorder rows.old.items) }
{
    rows.sort_by(|a, b| a.path.as_slice().cmp(&b.path.as_slice()))?;
    Ok(())
}

/// A row as a member of its group. A level that no `u32` holds counts as want of memory.
fn member_of(row: Row) -> Result<Member, NoMemory>
    ensures { IfOk result (λ member. member ≡ member_of_row row) }
{
    let level = level_of(row.path.as_slice().len())?;
    let parent = match row.parent {
        Some(link) => link.vxid,
        None => 0,
    };
    Ok(Member {
        vxid: row.vxid,
        kind: row.kind,
        reason: row.reason,
        level,
        parent,
        records: row.records,
    })
}

/// The level below so many others.
fn level_of(above: usize) -> Result<u32, NoMemory>
    ensures { IfOk result (λ level. level ≡ above + 1) }
{
    if above >= u32::MAX as usize {
        return Err(NoMemory);
    }
    Ok(above as u32 + 1)
}

/// The group of rows that are in preorder.
fn group_of(alloc: Global, rows: Vec<Row>) -> Result<Group, NoMemory>
    ensures { IfOk result (λ group. group ≡ record { members = map member_of_row rows.items }) }
{
    let mut members = Members::new(alloc);
    for row in rows {
        members.push(member_of(row)?)?;
    }
    Ok(Group { members })
}

/// Whether all rows of a tree have ended.
fn have_ended(rows: &[Row], root: u64) -> bool
    ensures { result ≡ list_all (λ row. row.ended) (rows_below root rows.now) }
{
    for i in 0..rows.len() {
        if rows[i].root == root && !rows[i].ended {
            return false;
        }
    }
    true
}

/// Takes out the rows of a tree. Each leaves an empty row in its place, so that the others move once.
fn take_rows(alloc: Global, rows: &mut Vec<Row>, root: u64) -> Result<Vec<Row>, NoMemory>
    ensures tree { IfOk result (λ tree. tree.items ≡ rows_below root rows.old.items) }
    ensures others { OnOk result (rows.new.items ≡ rows_beside root rows.old.items) }
{
    let mut tree = Vec::new(alloc);
    for i in 0..rows.len() {
        if rows[i].root == root {
            let gap = empty_row(alloc, root, 0, None);
            tree.push(mem::replace(&mut rows[i], gap))?;
        }
    }
    rows.retain(|row| row.root != root);
    Ok(tree)
}

/// Takes out a tree, all of whose rows have ended, as a group.
fn take_group(alloc: Global, rows: &mut Vec<Row>, root: u64) -> Result<Group, NoMemory>
    ensures group { IfOk result
        (λ group. group ≡ record {
          members =
              map member_of_row (rows_in_preorder (rows_below root rows.old.items));
        }) }
    ensures others { OnOk result (rows.new.items ≡ rows_beside root rows.old.items) }
{
    let mut tree = take_rows(alloc, rows, root)?;
    sort_rows(&mut tree)?;
    group_of(alloc, tree)
}

/// Whether a group that left is reported: request grouping does not report sessions.
pub fn is_reported(grouping: Grouping, group: &Group) -> bool
    ensures { result ≡ is_reported grouping group.now }
{
    match (grouping, group.members.as_slice()) {
        (Grouping::Request, [root, ..]) => root.kind != Kind::Session,
        _ => true,
    }
}

/// Where all rows of a tree have ended, they leave as a group, which is added if it is reported.
pub(crate) fn leave(
    alloc: Global,
    grouping: Grouping,
    rows: &mut Vec<Row>,
    root: u64,
    out: &mut Vec<Group>,
) -> Result<(), NoMemory>
    ensures ok { OnOk result (LeftRows grouping
        (left_rows root rows.old.items) rows.new.items out.old.items out.new.items) }
    ensures err { OnErr result (out.new.items ≡ out.old.items) }
{
    if !have_ended(rows, root) {
        return Ok(());
    }
    let group = take_group(alloc, rows, root)?;
    if is_reported(grouping, &group) {
        out.push(group)?;
    }
    Ok(())
}

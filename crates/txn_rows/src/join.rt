//! Joining trees of rows.

ghost use Rattle.std.specs.Prelude.{◌≡◌, ℕ, ◌==◌, ◌&&◌, not, is_none, map, IfOk, OnOk};
ghost use Rattle.txn_rows.specs.Links.{with_link};
ghost use Rattle.txn_rows.specs.Trees.{transaction_of, IsNewestRow, AreTrees};
ghost use Rattle.txn_rows.specs.inside.Rows.{joined, Rows};

use crate::group::ParentLink;
use crate::path::Path;
use crate::rows::Row;
use log_model::NoMemory;
use std::alloc::Global;
use vsl_record::Vxid;

/// What joins a tree to a parent.
#[derive(Drop)]
pub struct Join {
    /// The serial number at the top of the tree.
    pub child: u64,
    pub link: ParentLink,
    /// The serial number at the top of the parent's tree.
    pub root: u64,
    /// Where the parent stands.
    pub path: Path,
}

/// Whether one row can get another as its parent.
fn can_join(child: &Row, parent: &Row) -> bool
    ensures { result ≡ (is_none child.now.parent && not child.now.ended && not
        (parent.now.root == child.now.serial)) }
{
    child.parent.is_none() && !child.ended && parent.root != child.serial
}

/// Moves a row below the parent, where it is of the tree that joins; the parent has one child more.
fn join_row(alloc: Global, row: &mut Row, join: &Join) -> Result<(), NoMemory>
    ensures { OnOk result (row.new ≡ joined join.now row.old) }
{
    if row.root == join.child {
        row.path = join.path.below(alloc, join.link.number, &row.path)?;
        row.root = join.root;
    }
    if row.serial == join.child {
        row.parent = Some(join.link);
    }
    if row.serial == join.link.serial {
        if row.children == u64::MAX {
            return Err(NoMemory);
        }
        row.children += 1;
    }
    Ok(())
}

/// Moves the rows of the tree that joins below the parent.
fn join_rows(alloc: Global, rows: &mut Vec<Row>, join: &Join) -> Result<(), NoMemory>
    ensures { OnOk result (rows.new.items ≡ map (joined join.now) rows.old.items) }
{
    for i in 0..rows.len() {
        join_row(alloc, &mut rows[i], join)?;
    }
    Ok(())
}

/// What joins a row to another.
fn join_of(alloc: Global, child: &Row, parent: &Row) -> Result<Join, NoMemory>
    ensures { IfOk result (λ join.
        join ≡ record {
          child = child.now.serial;
          link = record {
            serial = parent.now.serial;
            vxid = parent.now.vxid;
            number = parent.now.children;
          };
          root = parent.now.root;
          path = parent.now.path;
        }) }
{
    Ok(Join {
        child: child.serial,
        link: ParentLink {
            serial: parent.serial,
            vxid: parent.vxid,
            number: parent.children,
        },
        root: parent.root,
        path: parent.path.to_owned(alloc)?,
    })
}

/// The newest row of the first VXID, which stands at `below`, becomes a child of the newest of the second, at `above`,
/// where it can.
pub(crate) fn link_rows(
    alloc: Global,
    rows: &mut Vec<Row>,
    below: usize,
    child: Vxid,
    above: usize,
    parent: Vxid,
) -> Result<(), NoMemory>
    requires child { IsNewestRow child below rows.old.items }
    requires parent { IsNewestRow parent above rows.old.items }
    ensures { (begun : ℕ) → AreTrees begun rows.old.items →
        OnOk result (Rows begun (with_link child parent
        (map transaction_of rows.old.items)) rows.new.items) }
{
    let (child_row, parent_row) = (&rows[below], &rows[above]);
    if !can_join(child_row, parent_row) {
        return Ok(());
    }
    let join = join_of(alloc, child_row, parent_row)?;
    join_rows(alloc, rows, &join)
}

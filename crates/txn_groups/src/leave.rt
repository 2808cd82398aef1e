//! Trees that leave as groups.

ghost use Rattle.std.specs.Prelude.{◌≡◌, ◌≤◌, ℕ, List, length, OnOk, OnErr};
ghost use Rattle.txn_rows.specs.declared.rows.Row.{Row};
ghost use Rattle.txn_rows.specs.Grouping.{is_session, is_led_by_session, is_reported};
ghost use Rattle.query_parser.specs.declared.query.Query.{Query as AsQuery};
ghost use Rattle.txn_groups.specs.Groups.{chosen};
ghost use Rattle.txn_groups.specs.inside.Linked.{NodeAt};
ghost use Rattle.txn_groups.specs.inside.Kin.{AreKin};
ghost use Rattle.txn_groups.specs.inside.Indexed.{IsIndex};
ghost use Rattle.txn_groups.specs.inside.Places.{AreFree};
ghost use Rattle.txn_groups.specs.inside.Walked.{members_of, visited_group};
ghost use Rattle.txn_groups.specs.inside.Taken.{AreStanding};
ghost use Rattle.txn_groups.specs.inside.Held.{HoldsRows};
ghost use Rattle.txn_groups.specs.inside.Marked.{queries_of, AreMarked};
ghost use Rattle.txn_groups.specs.inside.Leaves.{AreHanded, LeavesAs};

use crate::askers::Askers;
use crate::node::Node;
use crate::pending::Pending;
use crate::take_node::take_visits;
use crate::walk::{Visit, walk};
use log_model::NoMemory;
use query_eval::Chosen;
use std::alloc::Global;
use txn_rows::{Group, Grouping, Kind};

/// Whether a kind is a session.
fn is_session(kind: Kind) -> bool
    ensures { result ≡ is_session kind }
{
    kind == Kind::Session
}

/// Whether the first of visits comes to a session.
fn is_led_by_session(nodes: &[Node], visits: &[Visit]) -> bool
    ensures { AreStanding nodes.now visits.now →
        result ≡ is_led_by_session (members_of nodes.now visits.now) }
{
    let Some(root) = visits.first() else {
        return false;
    };
    let Some(node) = nodes.get(root.at) else {
        return false;
    };
    is_session(node.kind)
}

/// Whether the group of the nodes of visits is reported: request grouping does not report sessions.
fn is_reported(grouping: Grouping, nodes: &[Node], visits: &[Visit]) -> bool
    ensures { AreStanding nodes.now visits.now →
        result ≡ is_reported grouping (visited_group nodes.now visits.now) }
{
    match grouping {
        Grouping::Request => !is_led_by_session(nodes, visits),
        _ => true,
    }
}

/// Takes the nodes of visits out, and hands out their group, if it is reported. One that isn't is asked nothing.
fn hand_out(
    alloc: Global,
    grouping: Grouping,
    pending: &mut Pending,
    visits: &[Visit],
    askers: &Askers<'_>,
    out: &mut Vec<Chosen>,
) -> Result<(), NoMemory>
    ensures ok { AreStanding pending.old.nodes.items visits.now →
        length visits.now ≤ pending.old.rows →
        AreMarked (queries_of askers.now) pending.old.nodes.items → AreKin pending.old.nodes.items →
        IsIndex pending.old.nodes.items pending.old.index →
        AreFree pending.old.nodes.items pending.old.free.items →
        OnOk result (AreHanded (chosen
        (queries_of askers.now)) grouping pending.old pending.new visits.now out.old.items
        out.new.items) }
    ensures err { OnErr result (out.new.items ≡ out.old.items) }
{
    if !is_reported(grouping, &pending.nodes, visits) {
        let _ = take_visits(alloc, pending, visits)?;
        return Ok(());
    }
    let holds = askers.answers(&pending.nodes, visits)?;
    let members = take_visits(alloc, pending, visits)?;
    let group = Group { members };
    out.push(Chosen { group, holds })?;
    Ok(())
}

/// Where no node of a tree is unfinished, the tree leaves as a group, which is handed out if it is reported. It is told
/// the last node of the tree.
pub fn leave(
    alloc: Global,
    grouping: Grouping,
    pending: &mut Pending,
    last: usize,
    askers: &Askers<'_>,
    out: &mut Vec<Chosen>,
) -> Result<(), NoMemory>
    ensures ok { (queries : List AsQuery) (rows : List Row)
        (n : NodeAt pending.old.nodes.items rows last) → HoldsRows pending.old rows →
        n.node.up ≡ last → queries_of askers.now ≡ queries →
        AreMarked queries pending.old.nodes.items →
        OnOk result (LeavesAs (chosen queries) grouping n.row.root rows pending.old pending.new
        out.old.items out.new.items) }
    ensures err { OnErr result (out.new.items ≡ out.old.items) }
{
    let Some(node) = pending.nodes.get(last) else {
        return Ok(());
    };
    if node.unended > 0 {
        return Ok(());
    }
    let top = node.top;
    let size = node.size;
    let visits = walk(alloc, &pending.nodes, top, size)?;
    hand_out(alloc, grouping, pending, visits.as_slice(), askers, out)
}

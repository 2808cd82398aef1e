//! What queries say of the group of a tree, by the marks that its nodes keep.

ghost use Rattle.std.specs.Prelude.{◌≡◌, ◌++◌, Some, List, IfOk, slice_get};
ghost use Rattle.txn_rows.specs.declared.group.Member.{Member};
ghost use Rattle.query_eval.specs.Meaning.{is_held};
ghost use Rattle.query_eval.specs.Marks.{answer_of};
ghost use Rattle.txn_groups.specs.declared.node.Node.{Node as AsNode};
ghost use Rattle.txn_groups.specs.inside.Nodes.{StandsAt};
ghost use Rattle.txn_groups.specs.inside.Marked.{IsMarkedFor, AreMarkedFor};
ghost use Rattle.txn_groups.specs.inside.Taken.{AreStanding};
ghost use Rattle.txn_groups.specs.inside.Walked.{member_at, visited_group};

use crate::node::Node;
use crate::walk::Visit;
use log_model::NoMemory;
use query_eval::Answer;
use query_parser::Query;
use std::alloc::Global;

/// Adds the member of a node to the answer of the query at a place. A node without marks has no records, and satisfies no
/// test.
fn add_member(answer: &mut Answer, query: &Query, place: usize, node: &Node, level: u32)
    ensures { (members : List Member) → IsMarkedFor query.now place node.now →
        answer.old ≡ answer_of query.now members →
        answer.new ≡ answer_of query.now (members ++ member_at (Some node.now) level) }
{
    if let Some(marks) = node.marks.get(place) {
        answer.member(query, level, marks);
    }
}

/// Adds the member of a visit, where a node stands there.
fn add_visit(answer: &mut Answer, query: &Query, place: usize, nodes: &[Node], visit: Visit)
    ensures { (x : AsNode) (members : List Member) → StandsAt nodes.now visit.at x →
        AreMarkedFor query.now place nodes.now → answer.old ≡ answer_of query.now members →
        answer.new ≡ answer_of query.now
        (members ++ member_at (slice_get nodes.now visit.at) visit.level) }
{
    let Some(node) = nodes.get(visit.at) else {
        return;
    };
    add_member(answer, query, place, node, visit.level);
}

/// Whether the query at a place holds for the group of the nodes of visits.
pub fn answer_at(
    alloc: Global,
    query: &Query,
    place: usize,
    nodes: &[Node],
    visits: &[Visit],
) -> Result<bool, NoMemory>
    ensures { AreStanding nodes.now visits.now → AreMarkedFor query.now place nodes.now →
        IfOk result (λ b. b ≡ is_held query.now (visited_group nodes.now visits.now)) }
{
    let mut answer = Answer::new(alloc, query)?;
    for i in 0..visits.len() {
        add_visit(&mut answer, query, place, nodes, visits[i]);
    }
    Ok(answer.value(query))
}

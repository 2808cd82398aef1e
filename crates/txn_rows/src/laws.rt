//! Laws of the definitions, over whatever a reader took of a log, also over overruns. These functions do nothing.

ghost use Rattle.std.specs.Prelude.{◌≡◌, ◌+◌, ◌++◌, ◌∷◌, ◌≤◌, ◌<◌, ℕ, Bool, List, [], None, Some, true, false, length};
ghost use Rattle.std.specs.List.{All};
ghost use Rattle.vsl_record.specs.declared.record_type.Record.{Record};
ghost use Rattle.txn_rows.specs.declared.group.Group.{Group};
ghost use Rattle.txn_rows.specs.declared.group.GroupOptions.{GroupOptions};
ghost use Rattle.txn_rows.specs.declared.group.ParentLink.{ParentLink};
ghost use Rattle.txn_rows.specs.Ends.{HasEnded, TellsEnd};
ghost use Rattle.txn_rows.specs.Grouping.{Taken, Missed, flush, is_raw, left_of, no_state, taken_steps};
ghost use Rattle.txn_rows.specs.Links.{path_of, preorder, root_of, tree_of};
ghost use Rattle.txn_rows.specs.Transaction.{Transaction};
ghost use Rattle.txn_rows.specs.Taken.{count_in_groups, count_in_pending, count_members, count_taken, Forcing, count_synthesized};
ghost use Rattle.txn_rows.specs.Walk.{IsWalk};

/// The law that above each pending transaction stands one without a parent: no links go in a circle.
#[tactic(auto, using(crate::proofs::RunLemmas::taken_lines_end))]
pub fn every_line_ends()
    ensures { (options : GroupOptions) (taken : List Taken) →
        All (λ t. (root_of (taken_steps options taken no_state).state.pending t).parent ≡ None)
        (taken_steps options taken no_state).state.pending }
{}

/// The law that no more than the limit are pending after a unit or an overrun.
#[tactic(auto, using(crate::proofs::LimitLemmas::taken_within))]
pub fn limit_holds()
    ensures { (options : GroupOptions) (taken : List Taken) →
        length (taken_steps options taken no_state).state.pending ≤ options.limit }
{}

/// The law that an overrun leaves none pending, and that the groups up to it are those that a flush there would leave.
#[tactic(auto, using(crate::proofs::LimitLemmas::overrun_empties, crate::proofs::LimitLemmas::overrun_leaves))]
pub fn overrun_leaves_none()
    ensures none { (options : GroupOptions) (taken : List Taken) →
        length (taken_steps options (taken ++ Missed ∷ []) no_state).state.pending ≡ 0 }
    ensures groups { (options : GroupOptions) (taken : List Taken) →
        left_of options (taken ++ Missed ∷ []) false ≡ left_of options taken true }
{}

/// The law that each record that a grouping takes, and the two of each force-completion, stand in one group or are pending, once, under their VXID; after a flush none is pending.
pub fn each_record_once()
    ensures pending { (options : GroupOptions) (taken : List Taken) → (forcings : List Forcing) ×
        ((test : ℕ → Record → Bool) →
        count_in_groups test (left_of options taken false) + count_in_pending test
        (taken_steps options taken no_state).state.pending ≡
        count_taken test options.grouping taken + count_synthesized test forcings) }
    ensures flushed { (options : GroupOptions) (taken : List Taken) →
        (length (flush (taken_steps options taken no_state).state).state.pending ≡ 0) ×
        ((forcings : List Forcing) × ((test : ℕ → Record → Bool) →
        count_in_groups test (left_of options taken true) ≡
        count_taken test options.grouping taken + count_synthesized test forcings)) }
{}

/// The law that each transaction that began is a member of one group or pending, once, but for raw grouping, where none begins; after a flush, in which none begins, it is a member of one group.
#[tactic(auto, using(crate::proofs::TakenLemmas::each_member_once, crate::proofs::TakenLemmas::each_flushed_member_once))]
pub fn each_transaction_once()
    ensures pending { (options : GroupOptions) (taken : List Taken) →
        is_raw options.grouping ≡ false →
        count_members (left_of options taken false) + length
        (taken_steps options taken no_state).state.pending ≡
        (taken_steps options taken no_state).state.begun }
    ensures flushed { (options : GroupOptions) (taken : List Taken) →
        is_raw options.grouping ≡ false →
        ((flush (taken_steps options taken no_state).state).state.begun ≡
        (taken_steps options taken no_state).state.begun)
        × (count_members (left_of options taken true) ≡
        (taken_steps options taken no_state).state.begun) }
{}

/// The law that each member of a group that left, on the way or in a flush, has one End, its last record, but for raw grouping; and that a pending transaction has one where it has ended, its last record, and else none.
pub fn each_member_ends()
    ensures pending { (options : GroupOptions) (taken : List Taken) →
        is_raw options.grouping ≡ false →
        All (λ t. TellsEnd t.ended t.records) (taken_steps options taken no_state).state.pending }
    ensures left { (options : GroupOptions) (taken : List Taken) → is_raw options.grouping ≡ false →
        All HasEnded (left_of options taken true) }
{}

/// The law that of two children of one parent the one that got it first stands first, in any list; of those that are pending no two have one number.
#[tactic(auto, using(crate::proofs::OrderLemmas::siblings_ordered, crate::proofs::WalkLemmas::siblings_apart))]
pub fn siblings_stand_in_order()
    ensures ordered { (pending : List Transaction) (root : Transaction) (before : List Transaction)
        (a : Transaction) (between : List Transaction) (b : Transaction) (behind : List Transaction)
        (p q : ParentLink) →
        preorder (path_of pending) (tree_of pending root) ≡ before ++ a ∷ between ++ b ∷ behind →
        a.parent ≡ Some p → b.parent ≡ Some q → p.serial ≡ q.serial → p.number ≤ q.number }
    ensures apart { (options : GroupOptions) (taken : List Taken) →
        is_raw options.grouping ≡ false →
        (root : Transaction) (before : List Transaction) (a : Transaction)
        (between : List Transaction) (b : Transaction) (behind : List Transaction)
        (p q : ParentLink) →
        preorder (path_of (taken_steps options taken no_state).state.pending)
        (tree_of (taken_steps options taken no_state).state.pending root) ≡ before ++ a ∷ between ++
        b ∷ behind → a.parent ≡ Some p → b.parent ≡ Some q → p.serial ≡ q.serial →
        p.number < q.number }
{}

/// The law that each group, but for raw grouping, is a walk of its tree: each transaction stands behind its parent, before all that are less deep.
pub fn groups_are_walks()
    ensures { (options : GroupOptions) (taken : List Taken) → is_raw options.grouping ≡ false →
        All (λ (g : Group). IsWalk g.members) (left_of options taken true) }
{}

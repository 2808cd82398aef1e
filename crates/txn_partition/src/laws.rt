//! Laws of the groups of a log. These functions do nothing.

ghost use Rattle.std.specs.Prelude.{◌≡◌, ℕ, Bool, List, false, true};
ghost use Rattle.std.specs.List.{All};
ghost use Rattle.vsl_record.specs.Unit.{Log};
ghost use Rattle.txn_rows.specs.declared.group.Grouping.{Grouping};
ghost use Rattle.txn_rows.specs.declared.group.GroupOptions.{GroupOptions};
ghost use Rattle.txn_rows.specs.Grouping.{Taken, all_taken, groups_of, is_raw, left_of};
ghost use Rattle.txn_partition.specs.ChildNames.{ChildrenWereNamed};
ghost use Rattle.txn_partition.specs.LogFacts.{entries_of, is_in, named};
ghost use Rattle.txn_partition.specs.OfUnits.{IsGroupOfUnits, TakeUnits};
ghost use Rattle.txn_partition.specs.Partition.{Calm, Regular, classes, count_vxid, partition};

/// The law that the groups of a regular and calm log, but for raw grouping, are the partition of its VXIDs by
/// links: the classes that links join, in preorder, in the order of their last Ends. A flush at the end has nothing
/// to do.
#[tactic(auto, using(crate::proofs::PartitionLemmas::classes_left, crate::proofs::PartitionLemmas::groups_parted))]
pub fn groups_are_the_partition()
    ensures left { (options : GroupOptions) (log : Log) → is_raw options.grouping ≡ false →
        Regular log options.grouping → Calm log options → (flushed : Bool) →
        left_of options (all_taken log) flushed ≡ classes log options.grouping }
    ensures reported { (options : GroupOptions) (log : Log) → is_raw options.grouping ≡ false →
        Regular log options.grouping → Calm log options → (flushed : Bool) →
        groups_of options (all_taken log) flushed ≡ partition log options.grouping }
{}

/// The law that each VXID that a regular log names is a member of one of its classes, once.
#[tactic(auto, using(crate::proofs::ClassOnceLemmas::each_named_once))]
pub fn each_vxid_once()
    ensures { (log : Log) (grouping : Grouping) → Regular log grouping → (vxid : ℕ) →
        is_in vxid (named grouping (entries_of log)) ≡ true →
        count_vxid vxid (classes log grouping) ≡ 1 }
{}

/// The law that where the units that were taken are units, each member of a group that left has the VXID of a unit,
/// and records that units can have; those of force-completions too.
pub fn groups_are_of_units()
    ensures { (options : GroupOptions) (taken : List Taken) (flushed : Bool) → TakeUnits taken →
        All IsGroupOfUnits (left_of options taken flushed) }
{}

/// The law that of each group that left, each member but the first has its parent before it, and a Begin of its own
/// names that, or a Link of the parent's names the member. So no group joins what no record joins.
pub fn each_child_was_named()
    ensures { (options : GroupOptions) (taken : List Taken) (flushed : Bool) →
        All (ChildrenWereNamed options.grouping) (left_of options taken flushed) }
{}

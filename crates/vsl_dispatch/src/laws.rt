//! What the calls come to, one after the other. A law is a function that does nothing.

ghost use Rattle.std.specs.Prelude.{◌≡◌, ℕ, Bool, true, false, List, [], ◌∷◌, ◌++◌, ◌||◌, if◌then◌else◌, ◌⊎◌};
ghost use Rattle.txn_rows.specs.declared.group.Group.{Group};
ghost use Rattle.vsl_record.specs.Unit.{LogUnit};
ghost use Rattle.vsl_dispatch.specs.Groups.{raw_groups, kept, is_filled};
ghost use Rattle.vsl_dispatch.specs.Entries.{Handed, Finished, TextTaken, OfferedTo, Stands};
ghost use Rattle.vsl_dispatch.specs.declared.entry.Entry.{Entry};

use crate::consumer::Consumer;

/// A consumer that keeps at least one group receives, in order, exactly the groups for which its query holds, up to the last that it
/// keeps; it is ended once; and the texts that are taken are, in order, its text. Nothing is added to that of one that has ended.
pub fn each_receives_its_groups<C: Consumer>()
    ensures given { (group : Group) (holds : Bool) (old new : Entry C) (groups : List Group)
        (taken : List ℕ) → Handed C.keep C.output C.represents group holds old new →
        Stands C.keep C.output C.represents false old groups taken →
        Stands C.keep C.output C.represents false new
        (if holds then groups ++ group ∷ [] else groups) taken }
    ensures offered { (u : LogUnit) (took : Bool) (old new : Entry C) (groups : List Group)
        (taken : List ℕ) → OfferedTo C.keep C.output C.represents u took old new →
        Stands C.keep C.output C.represents false old groups taken →
        Stands C.keep C.output C.represents false new
        (if took then groups ++ raw_groups u else groups) taken }
    ensures taken { (text : List ℕ) (ended : Bool) (old new : Entry C) (groups : List Group)
        (taken : List ℕ) → TextTaken C.keep C.output C.represents text old new →
        Stands C.keep C.output C.represents ended old groups taken →
        Stands C.keep C.output C.represents ended new groups (taken ++ text) ×
        (taken ++ text ≡ C.output old.consumer (kept (C.keep old.consumer) groups)
        (ended || is_filled (C.keep old.consumer) groups)) }
    ensures finished { (old new : Entry C) (groups : List Group) (taken : List ℕ) →
        Finished C.keep C.output C.represents old new →
        Stands C.keep C.output C.represents false old groups taken →
        Stands C.keep C.output C.represents true new groups taken }
    ensures after { (group : Group) (holds : Bool) (old new : Entry C) (groups : List Group)
        (taken : List ℕ) → Handed C.keep C.output C.represents group holds old new ⊎
        Finished C.keep C.output C.represents old new →
        Stands C.keep C.output C.represents true old groups taken →
        Stands C.keep C.output C.represents true new groups taken }
{}

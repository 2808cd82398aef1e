//! What a consumer is.

ghost use Rattle.std.specs.Prelude.{◌≡◌, ◌≢◌, ℕ, Bool, true, false, List, [], ◌∷◌, ◌++◌, length, if◌then◌else◌, Option, Some, None, IfOk, OnOk};
ghost use Rattle.txn_rows.specs.declared.group.Group.{Group};
ghost use Rattle.vsl_dispatch.specs.Groups.{raw_groups};

use log_model::NoMemory;
use txn_rows::Group;
use vsl_record::Unit;

/// Whether a consumer takes more groups.
#[derive(Clone, Copy, Debug, PartialEq, Eq)]
pub enum Go {
    /// It does.
    More,
    /// It received as many as it keeps.
    Done,
}

/// Something that receives groups and writes a text of them, which is handed out in pieces. It stores no list of the groups
/// that it received.
pub trait Consumer: Drop {
    /// How many groups it keeps, where there is a limit. No call changes this.
    ghost keep: { Self → Option ℕ };

    /// What it writes of groups, ended or not. No call changes this.
    ghost output: { Self → List Group → Bool → List ℕ };

    /// It received these groups, ended or not, and of what it writes these bytes were taken.
    ghost represents: { Self → List Group → Bool → List ℕ → Type 0 };

    /// Takes a group. It is done exactly with the last group that it keeps.
    fn group(&mut self, group: &Group) -> Result<Go, NoMemory>
        ensures same_keep { keep self.new ≡ keep self.old }
        ensures same_output { output self.new ≡ output self.old }
        ensures takes { OnOk result ((groups : List Group) (taken : List ℕ) →
            represents self.old groups false taken →
            represents self.new (groups ++ group.now ∷ []) false taken) }
        ensures last { result ≡ Ok Go.Done → (groups : List Group) (taken : List ℕ) →
            represents self.old groups false taken →
            keep self.old ≡ Some (length (groups ++ group.now ∷ [])) }
        ensures more { result ≡ Ok Go.More → (groups : List Group) (taken : List ℕ) →
            represents self.old groups false taken →
            keep self.old ≢ Some (length (groups ++ group.now ∷ [])) };

    /// Takes the records of a unit, each as a group by itself, as under raw grouping, where it keeps all groups and has a
    /// short way to do so; whether it took them.
    fn records(&mut self, unit: &Unit) -> Result<bool, NoMemory>
        ensures same_keep { keep self.new ≡ keep self.old }
        ensures same_output { output self.new ≡ output self.old }
        ensures takes { IfOk result (λ took. (groups : List Group) (taken : List ℕ) →
            represents self.old groups false taken →
            represents self.new (if took then groups ++ raw_groups unit.now
            else groups) false taken) }
        ensures all { result ≡ Ok true → keep self.old ≡ None };

    /// No group will follow.
    fn end(&mut self) -> Result<(), NoMemory>
        ensures same_keep { keep self.new ≡ keep self.old }
        ensures same_output { output self.new ≡ output self.old }
        ensures ends { OnOk result ((groups : List Group) (taken : List ℕ) →
            represents self.old groups false taken → represents self.new groups true taken) };

    /// What it wrote since this was last taken. It takes no memory.
    fn take_text(&mut self) -> Vec<u8>
        ensures same_keep { keep self.new ≡ keep self.old }
        ensures same_output { output self.new ≡ output self.old }
        ensures text { (groups : List Group) (ended : Bool) (taken : List ℕ) →
            represents self.old groups ended taken →
            taken ++ result.items ≡ output self.old groups ended }
        ensures taken { (groups : List Group) (ended : Bool) (taken : List ℕ) →
            represents self.old groups ended taken →
            represents self.new groups ended (taken ++ result.items) };

    /// How many bytes it wrote since its text was last taken.
    fn text_len(&self) -> usize;
}

impl Consumer for Box<dyn Consumer> {
    ghost keep = { λ b. (Consumer-box b).keep b.value };

    ghost output = { λ b. (Consumer-box b).output b.value };

    ghost represents = { λ b. (Consumer-box b).represents b.value };

    fn group(&mut self, group: &Group) -> Result<Go, NoMemory> {
        (**self).group(group)
    }

    fn records(&mut self, unit: &Unit) -> Result<bool, NoMemory> {
        (**self).records(unit)
    }

    fn end(&mut self) -> Result<(), NoMemory> {
        (**self).end()
    }

    fn take_text(&mut self) -> Vec<u8> {
        (**self).take_text()
    }

    fn text_len(&self) -> usize {
        (**self).text_len()
    }
}

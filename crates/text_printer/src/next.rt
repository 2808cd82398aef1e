//! What comes next is grouped, and the groups that it completes and for which the query holds are given to a consumer.

ghost use Rattle.std.specs.Prelude.{◌≡◌, [], ◌∷◌, false, true, if◌then◌else◌, Ok, IfOk, OnOk};
ghost use Rattle.txn_rows.specs.declared.group.Grouping.TheVariants.{Raw};
ghost use Rattle.txn_rows.specs.Grouping.{raw_group};
ghost use Rattle.txn_groups.specs.Groups.{groups_state};
ghost use Rattle.vsl_dispatch.specs.Groups.{raw_groups};
ghost use Rattle.vsl_dispatch.specs.Entries.{IsSame};
ghost use Rattle.text_printer.specs.Held.{held_groups};
ghost use Rattle.text_printer.specs.inside.Asked.{alone_query};
ghost use Rattle.text_printer.specs.inside.Next.{Completed, Gave, first_held, is_end};

use crate::alone::AskedAlone;
use log_model::NoMemory;
use query_eval::Chosen;
use std::alloc::Global;
use txn_groups::Groups;
use txn_rows::Grouping;
use vsl_dispatch::{Consumer, Entry};
use vsl_record::{RecordView, Unit, Vxid};

/// What a printer takes next.
#[derive(Drop)]
pub(crate) enum Next<'a> {
    /// A unit of the log.
    Unit(&'a Unit),
    /// The reader was overrun, and missed units.
    Missed,
    /// The log has ended.
    End,
}

impl Next<'_> {
    /// Whether the log has ended.
    pub fn is_end(&self) -> bool
        ensures { result ≡ is_end self.now }
    {
        match self {
            Next::Unit(_) | Next::Missed => false,
            Next::End => true,
        }
    }
}

/// Gives an entry a record as a group by itself, where the query holds for it.
#[tactic(auto, using(crate::proofs::NextLemmas::gave_handed, crate::proofs::NextLemmas::gave_none))]
fn give_record<C: Consumer>(
    asked: &mut AskedAlone<'_>,
    entry: &mut Entry<C>,
    vxid: Vxid,
    rec: &RecordView<'_>,
) -> Result<(), NoMemory>
    ensures consumer { IsSame C.keep C.output entry.old.consumer entry.new.consumer }
    ensures gave { OnOk result (Gave C.keep C.output C.represents
        (held_groups (alone_query asked.old) (raw_group vxid rec.now ∷ [])) false entry.old entry.new) }
    ensures same { alone_query asked.new ≡ alone_query asked.old }
{
    match asked.group_of(vxid, rec)? {
        Some(group) => entry.give(&group),
        None => Ok(()),
    }
}

/// Gives an entry the records of a unit for which the query holds, each as a group by itself.
fn give_records<C: Consumer>(
    asked: &mut AskedAlone<'_>,
    entry: &mut Entry<C>,
    unit: &Unit,
) -> Result<(), NoMemory>
    ensures consumer { IsSame C.keep C.output entry.old.consumer entry.new.consumer }
    ensures gave { OnOk result (Gave C.keep C.output C.represents
        (held_groups (alone_query asked.old) (raw_groups unit.now)) false entry.old entry.new) }
    ensures same { alone_query asked.new ≡ alone_query asked.old }
{
    let records = unit.records();
    for i in 0..records.len() {
        give_record(asked, entry, unit.vxid(), &records.get(i))?;
    }
    Ok(())
}

/// Offers an entry the records of a unit, each as a group by itself, where the query holds for all; whether it took them.
#[tactic(auto, using(crate::proofs::NextLemmas::gave_offered, crate::proofs::NextLemmas::gave_none))]
fn offer<C: Consumer>(always: bool, entry: &mut Entry<C>, unit: &Unit) -> Result<bool, NoMemory>
    ensures consumer { IsSame C.keep C.output entry.old.consumer entry.new.consumer }
    ensures always { result ≡ Ok true → always ≡ true }
    ensures gave { IfOk result
        (λ took. Gave C.keep C.output C.represents
        (if took then raw_groups unit.now else []) false entry.old entry.new) }
{
    if always {
        entry.records(unit)
    } else {
        Ok(false)
    }
}

/// Gives an entry the records of a unit, each as a group by itself, where they are so grouped and the query holds for
/// them; whether they are.
fn take_alone<C: Consumer>(
    grouping: Grouping,
    asked: &mut AskedAlone<'_>,
    entry: &mut Entry<C>,
    unit: &Unit,
) -> Result<bool, NoMemory>
    ensures consumer { IsSame C.keep C.output entry.old.consumer entry.new.consumer }
    ensures raw { result ≡ Ok true → grouping ≡ Raw }
    ensures gave { IfOk result
        (λ took. Gave C.keep C.output C.represents
        (if took then held_groups (alone_query asked.old) (raw_groups unit.now) else [])
        false entry.old entry.new) }
    ensures same { alone_query asked.new ≡ alone_query asked.old }
{
    match grouping {
        Grouping::Raw => {}
        _ => return Ok(false),
    }
    if offer(asked.always(), entry, unit)? {
        return Ok(true);
    }
    give_records(asked, entry, unit)?;
    Ok(true)
}

/// Has what comes next grouped; the groups that it completed, but for those that an entry has already. The groups are asked the
/// query alone.
pub(crate) fn complete<C: Consumer>(
    alloc: Global,
    groups: &mut Groups<'_>,
    asked: &mut AskedAlone<'_>,
    entry: &mut Entry<C>,
    next: Next<'_>,
) -> Result<Vec<Chosen>, NoMemory>
    requires asked { (groups_state groups.old).queries ≡ alone_query asked.old ∷ [] }
    ensures consumer { IsSame C.keep C.output entry.old.consumer entry.new.consumer }
    ensures options { (groups_state groups.new).table.options ≡
        (groups_state groups.old).table.options }
    ensures completed { IfOk result
        (λ left. Completed C.keep C.output C.represents (alone_query asked.old) next.entry
        (groups_state groups.old).table
        (groups_state groups.new).table entry.old entry.new left.items) }
    ensures asked { (groups_state groups.new).queries ≡ alone_query asked.old ∷ [] }
    ensures same { alone_query asked.new ≡ alone_query asked.old }
{
    let mut left = Vec::new(alloc);
    match next {
        Next::Unit(unit) => {
            if take_alone(groups.grouping(), asked, entry, unit)? {
                return Ok(left);
            }
            groups.step(unit, &mut left)?;
            Ok(left)
        }
        Next::Missed | Next::End => {
            groups.flush(&mut left)?;
            Ok(left)
        }
    }
}

/// Gives an entry a group, where the first query holds for it.
#[tactic(auto, using(crate::proofs::NextLemmas::gave_handed, crate::proofs::NextLemmas::gave_none))]
fn give_group<C: Consumer>(entry: &mut Entry<C>, chosen: &Chosen) -> Result<(), NoMemory>
    ensures consumer { IsSame C.keep C.output entry.old.consumer entry.new.consumer }
    ensures gave { OnOk result (Gave C.keep C.output C.represents
        (first_held (chosen.now ∷ [])) false entry.old entry.new) }
{
    let [true, ..] = chosen.holds.as_slice() else {
        return Ok(());
    };
    entry.give(&chosen.group)
}

/// Gives an entry the groups for which the first query holds, and ends it where no more will follow.
#[tactic(auto, using(crate::proofs::NextLemmas::gave_next, crate::proofs::NextLemmas::gave_finished))]
pub(crate) fn give_all<C: Consumer>(
    entry: &mut Entry<C>,
    all: &[Chosen],
    ended: bool,
) -> Result<(), NoMemory>
    ensures consumer { IsSame C.keep C.output entry.old.consumer entry.new.consumer }
    ensures gave { OnOk result (Gave C.keep C.output C.represents
        (first_held all.now) ended entry.old entry.new) }
{
    for chosen in all {
        give_group(entry, chosen)?;
    }
    if !ended {
        return Ok(());
    }
    entry.finish()
}

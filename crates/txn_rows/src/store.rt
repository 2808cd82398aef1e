//! A store of pending transactions: what each of its calls does to the state that it keeps.

ghost use Rattle.std.specs.Prelude.{◌≡◌, ℕ, false, [], ◌∷◌, length, IfOk, IfSome, IfNone, OnOk, OnErr};
ghost use Rattle.std.specs.List.{list_any};
ghost use Rattle.txn_rows.specs.declared.group.Group.{Group};
ghost use Rattle.txn_rows.specs.Transaction.{is_pending, is_open, with_newest, with_record, with_kind, longer_by};
ghost use Rattle.txn_rows.specs.Links.{with_link};
ghost use Rattle.txn_rows.specs.Grouping.{State, with_transaction, with_other, with_time, ended_one, forced_one, raw_group, unfinished};
ghost use Rattle.txn_rows.specs.Store.{Went, WentBy, test_of};
ghost use Rattle.txn_rows.specs.Claim.{own_claim};
ghost use Rattle.txn_rows.specs.Times.{IsTimed, NoneLateUpTo};
ghost use Rattle.txn_rows.specs.Whole.{with_whole};

use crate::claim::Claim;
use crate::group::{Cause, Grouping};
use crate::which::Which;
use log_model::NoMemory;
use vsl_record::{RecordView, RecordsView, Vxid};

/// The pending transactions, and the log time. What is said of a call holds while none failed.
pub trait Store: Drop {
    /// What is handed out for a group that is complete.
    type Left: Drop;

    /// What is told of it beside its state, and no call changes.
    ghost Key: { Type 0 };

    /// What is so of it while no call failed.
    ghost holds: { Key → Self → Type 0 };

    /// What it hands out for a group.
    ghost hand: { Key → Group → Self.Left };

    /// The state that it keeps.
    ghost state: { Self → State };

    /// The newest transaction of a VXID is at a place.
    ghost newest_at: { Self → ℕ → ℕ → Type 0 };

    /// The log time, in units of 10^-18 seconds.
    fn time(&self) -> Option<u128>
        ensures { result ≡ (state self.now).time };

    /// How many transactions are pending.
    fn rows(&self) -> usize
        ensures { (key : Key) → holds key self.now → result ≡ length (state self.now).pending };

    /// The same, also after a call failed: they are counted one by one.
    fn count(&self) -> usize
        ensures { result ≡ length (state self.now).pending };

    /// How many of them have not ended, also after a call failed.
    fn unfinished(&self) -> usize
        ensures { result ≡ unfinished (state self.now) };

    /// The place of the newest transaction of a VXID.
    fn newest(&self, vxid: Vxid) -> Option<usize>
        ensures some { IfSome result (λ at. newest_at self.now vxid at) }
        ensures none { (key : Key) → holds key self.now →
            IfNone result (is_pending vxid (state self.now).pending ≡ false) };

    /// Whether the newest transaction of a VXID has not ended.
    fn is_open(&self, at: usize, vxid: Vxid) -> bool
        requires { newest_at self.now vxid at }
        ensures { (key : Key) → holds key self.now →
            result ≡ is_open vxid (state self.now).pending };

    /// The place of the newest transaction of a VXID that has not ended; where there is none, one begins.
    fn open_row(&mut self, vxid: Vxid) -> Result<usize, NoMemory>
        ensures went { (key : Key) → holds key self.old →
            OnOk result (Went (holds key) state (with_transaction vxid (state self.old)) self.new) }
        ensures newest { IfOk result (λ at. newest_at self.new vxid at) };

    /// The place of the newest transaction of a VXID; where there is none, one begins.
    fn other_row(&mut self, vxid: Vxid) -> Result<usize, NoMemory>
        ensures went { (key : Key) → holds key self.old →
            OnOk result (Went (holds key) state (with_other vxid (state self.old)) self.new) }
        ensures newest { IfOk result (λ at. newest_at self.new vxid at) }
        ensures keeps { OnOk result ((v at : ℕ) → newest_at self.old v at →
            newest_at self.new v at) };

    /// The newest transaction of one VXID becomes a child of the newest of another, where it can.
    fn link(
        &mut self,
        below: usize,
        child: Vxid,
        above: usize,
        parent: Vxid,
    ) -> Result<(), NoMemory>
        requires child { newest_at self.old child below }
        requires parent { newest_at self.old parent above }
        ensures { (key : Key) → holds key self.old →
            OnOk result (Went (holds key) state
            (record (state self.old) { pending = with_link child parent (state self.old).pending })
            self.new) };

    /// Adds a record to the newest transaction of its VXID; a Begin may tell its kind. Where that
    /// has no records, room is made for those at hand.
    fn add_to(
        &mut self,
        at: usize,
        vxid: Vxid,
        rec: &RecordView<'_>,
        claim: Option<Claim>,
        at_hand: &RecordsView<'_>,
    ) -> Result<(), NoMemory>
        requires newest { newest_at self.old vxid at }
        requires claim { claim ≡ own_claim rec.now }
        ensures went { (key : Key) → holds key self.old →
            OnOk result (Went (holds key) state
            (record (state self.old) {
              pending =
                  with_kind vxid rec.now (with_record vxid rec.now (state self.old).pending);
            }) self.new) }
        ensures newest { OnOk result (newest_at self.new vxid at) };

    /// Adds records that tell nothing but themselves to the newest transaction of their VXID.
    fn add_run(&mut self, at: usize, vxid: Vxid, run: &RecordsView<'_>) -> Result<(), NoMemory>
        requires { newest_at self.old vxid at }
        ensures went { (key : Key) → holds key self.old →
            OnOk result (Went (holds key) state
            (record (state self.old) {
              pending =
                  with_newest vxid (longer_by run.now) (state self.old).pending;
            }) self.new) }
        ensures newest { OnOk result (newest_at self.new vxid at) };

    /// A time that was told may raise the log time.
    fn raise(&mut self, told: Option<u128>)
        ensures went { (key : Key) → holds key self.old → IsTimed (state self.old) →
            Went (holds key) state (with_time told (state self.old)) self.new }
        ensures newest { (v at : ℕ) → newest_at self.old v at → newest_at self.new v at };

    /// A log time up to which no transaction is late, neither one that is pending nor one that begins, where one can be
    /// told.
    fn last_in_time(&mut self, seconds: u32) -> Option<u128>
        ensures late { (key : Key) → holds key self.old → IsTimed (state self.old) →
            IfSome result (λ last. NoneLateUpTo seconds last (state self.old)) }
        ensures went { (key : Key) → holds key self.old →
            Went (holds key) state (state self.old) self.new }
        ensures newest { (v at : ℕ) → newest_at self.old v at → newest_at self.new v at };

    /// The newest transaction of a VXID ends, and may complete a group.
    fn end_row(
        &mut self,
        grouping: Grouping,
        at: usize,
        vxid: Vxid,
        out: &mut Vec<Self::Left>,
    ) -> Result<(), NoMemory>
        requires { newest_at self.old vxid at }
        ensures ok { (key : Key) → holds key self.old →
            OnOk result (WentBy (holds key) state (hand key) grouping
            (ended_one vxid (state self.old)) self.new out.old.items out.new.items) }
        ensures err { OnErr result (out.new.items ≡ out.old.items) };

    /// Force-completes the oldest of those transactions, which may complete a group; whether there is one.
    fn force_one(
        &mut self,
        grouping: Grouping,
        which: Which,
        cause: Cause,
        out: &mut Vec<Self::Left>,
    ) -> Result<bool, NoMemory>
        ensures ok { (key : Key) → holds key self.old → IsTimed (state self.old) →
            OnOk result (WentBy (holds key) state (hand key) grouping
            (forced_one (test_of which) cause
            (state self.old)) self.new out.old.items out.new.items) }
        ensures found { (key : Key) → holds key self.old → IsTimed (state self.old) →
            IfOk result (λ found. found ≡ list_any (test_of which) (state self.old).pending) }
        ensures err { OnErr result (out.new.items ≡ out.old.items) };

    /// A transaction begins, of which these are all records, and ends: it is handed out as a group by itself.
    fn hand_whole(
        &mut self,
        vxid: Vxid,
        records: &RecordsView<'_>,
        out: &mut Vec<Self::Left>,
    ) -> Result<(), NoMemory>
        ensures ok { (key : Key) → holds key self.old →
            OnOk result (WentBy (holds key) state (hand key) Grouping.Vxid
            (ended_one vxid (with_whole vxid records.now
            (state self.old))) self.new out.old.items out.new.items) }
        ensures err { OnErr result (out.new.items ≡ out.old.items) };

    /// Hands out a record as a group by itself.
    fn hand_alone(
        &mut self,
        vxid: Vxid,
        rec: &RecordView<'_>,
        out: &mut Vec<Self::Left>,
    ) -> Result<(), NoMemory>
        ensures ok { (key : Key) → holds key self.old →
            OnOk result (WentBy (holds key) state (hand key) Grouping.Raw
            (record {
              state = state self.old;
              groups = raw_group vxid rec.now ∷ [];
            }) self.new out.old.items out.new.items) }
        ensures err { OnErr result (out.new.items ≡ out.old.items) };
}

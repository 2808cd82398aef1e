//! Which transactions are force-completed.

ghost use Rattle.std.specs.Prelude.{◌≡◌, ◌≤◌, ℕ, false, Some};
ghost use Rattle.txn_rows.specs.Transaction.{Transaction};
ghost use Rattle.txn_rows.specs.Grouping.{is_behind};
ghost use Rattle.txn_rows.specs.Store.{test_of};

/// Which transactions are force-completed.
#[derive(Clone, Copy)]
pub enum Which {
    /// Those that have not ended.
    Unfinished,
    /// Of these, those that began more than so many seconds before a time.
    Late { seconds: u32, now: Option<u128> },
}

/// So many units are a second.
const SECOND: u128 = 1_000_000_000_000_000_000;

/// Whether a time lies more than so many seconds behind another.
fn is_behind(seconds: u32, time: Option<u128>, now: Option<u128>) -> bool
    ensures { result ≡ is_behind seconds time now }
{
    match (time, now) {
        (Some(time), Some(now)) => time < now && now - time > seconds as u128 * SECOND,
        _ => false,
    }
}

/// The last log time that lies no more than so many seconds behind a time, or the last that there is.
pub fn last_in_time(seconds: u32, time: u128) -> u128
    ensures { (now : ℕ) → now ≤ result → is_behind seconds (Some time) (Some now) ≡ false }
{
    time.saturating_add(seconds as u128 * SECOND)
}

impl Which {
    /// Whether a transaction that has ended or not, and began at a time, is one of those.
    pub fn is_met(self, ended: bool, time: Option<u128>) -> bool
        ensures { (t : Transaction) → t.ended ≡ ended → t.time ≡ time → result ≡ test_of self t }
    {
        match self {
            Which::Unfinished => !ended,
            Which::Late { seconds, now } => !ended && is_behind(seconds, time, now),
        }
    }
}

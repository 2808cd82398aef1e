//! The units that the records of a group are written in.

ghost use Rattle.std.specs.Prelude.{◌≡◌, ◌<◌, ◌≤◌, ◌∷◌, ℕ, length, take, drop};
ghost use Rattle.std.specs.List.{All};
ghost use Rattle.vsl_record.specs.Words.{unit_words};
ghost use Rattle.txn_rows.specs.Transaction.{first_mark};
ghost use Rattle.vsl_select.specs.FileUnits.{most_file_words, file_unit, units_of};

use vsl_record::{Mark, RecordsView};

/// The most words of a unit. This project's choice.
const MOST_WORDS: usize = 65536;

/// The mark of the first record, or none.
pub(crate) fn first_mark(records: &RecordsView<'_>) -> Mark
    ensures { result ≡ first_mark records.now }
{
    if records.is_empty() {
        return Mark::Plain;
    }
    records.get(0).mark()
}

/// How many of a transaction's records the first unit has: it ends where the mark changes, and before the
/// record with which it would have more than 65,536 words.
///
/// Source: varnishlog(1), `-w`. Where a unit ends is this project's choice.
pub fn first_unit(records: &RecordsView<'_>) -> usize
    requires { 0 < length records.now }
    ensures units { (vxid : ℕ) →
        units_of vxid records.now ≡ file_unit vxid (take result records.now) ∷ units_of vxid
        (drop result records.now) }
    ensures some { 0 < result }
    ensures within { result ≤ length records.now }
    ensures marks { let unit = take result records.now in All (λ r. r.mark ≡ first_mark unit) unit }
    ensures size { (vxid : ℕ) →
        length (unit_words (file_unit vxid (take result records.now))) ≤ most_file_words }
{
    let mark = first_mark(records);
    let mut words = 1 + records.get(0).words();
    for at in 1..records.len() {
        let rec = records.get(at);
        if rec.mark() != mark {
            return at;
        }
        let size = words + rec.words();
        if size > MOST_WORDS {
            return at;
        }
        words = size;
    }
    records.len()
}

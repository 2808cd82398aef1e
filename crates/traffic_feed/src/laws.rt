//! The laws of listings and of made requests. A law is a function that does nothing.

ghost use Rattle.std.specs.Prelude.{◌≡◌, ◌⊎◌, ℕ, ◌*◌, ◌≤◌, Bool, false, List, ◌∷◌, ◌++◌, IfSome, slice_get};
ghost use Rattle.std.specs.List.{All, AllByRecursion, flat_map};
ghost use Rattle.ring_layout.specs.Places.{IsSegment};
ghost use Rattle.vsl_record.specs.Payload.{most_payload};
ghost use Rattle.vsl_record.specs.Unit.{Log, LogUnit};
ghost use Rattle.raw_records.specs.Gathered.{gathered, logged};
ghost use Rattle.traffic_feed.specs.Batches.{IsWithin, listing_units, most_kept, sections};
ghost use Rattle.raw_records.specs.Lines.{IsFirstBad, Line, LoggedRecord};
ghost use Rattle.vsl_select.specs.RawLine.{raw_lines};
ghost use Rattle.traffic_feed.specs.Listing.{IsListing, record_count, word_count};
ghost use Rattle.traffic_feed.specs.Made.{made_cuts, made_units};
ghost use Rattle.traffic_feed.specs.RawLog.{AreBatches, IsReadBack};

/// Bytes are a listing of some units with so many cuts, or have a first bad line.
pub fn every_listing()
    ensures { (bytes : List ℕ) (reclen seg : ℕ) → ((units : Log) × (cuts : ℕ)
        × IsListing bytes reclen seg units cuts) ⊎ ((line : ℕ) × IsFirstBad bytes line) }
{}

/// Bytes are a listing of one list of units, with one number of cuts, or have one first bad line, and never both.
pub fn one_listing()
    ensures one { (bytes : List ℕ) (reclen seg : ℕ) (us vs : Log) (m n : ℕ) →
        IsListing bytes reclen seg us m → IsListing bytes reclen seg vs n → (us ≡ vs) × (m ≡ n) }
    ensures one_bad { (bytes : List ℕ) (m n : ℕ) → IsFirstBad bytes m → IsFirstBad bytes n → m ≡ n }
    ensures none { (bytes : List ℕ) (reclen seg : ℕ) (units : Log) (cuts line : ℕ) →
        IsListing bytes reclen seg units cuts → IsFirstBad bytes line → ⊥ }
{}

/// Each record between blank lines is in one unit, in order.
pub fn each_record_once()
    ensures { (reclen seg : ℕ) (ls : List Line) → flat_map logged (listing_units reclen seg ls)
        ≡ flat_map (λ s. s) (sections (most_kept reclen seg) ls) }
{}

/// Batches and units are as long as they can be: of two in a row, the first record of the second doesn't go into the first.
pub fn units_are_longest()
    ensures { (goes : LogUnit → LoggedRecord → Bool) (ls : List LoggedRecord) (before behind : Log)
        (u v : LogUnit) →
        gathered goes ls ≡ before ++ u ∷ v ∷ behind →
        IfSome (slice_get (logged v) 0) (λ l. goes u l ≡ false) }
{}

/// A log is read back from its raw lines, uncut: where each unit fits in a segment and is printed as it is, and each two in a row
/// are two batches.
pub fn raw_lines_read_back()
    ensures { (log : Log) (reclen seg : ℕ) → AllByRecursion (IsReadBack reclen seg) log →
        AreBatches log → IsListing (flat_map raw_lines log) reclen seg log 0 }
{}

/// Each unit of up to 100,000 made requests fits in a segment, and they have at most 25 records and 256 words a request, and no
/// more cuts than records.
pub fn made_traffic_is_within()
    ensures fits { (count seed reclen seg : ℕ) → IsSegment seg → count ≤ 100000 →
        reclen ≤ most_payload → All (IsWithin seg) (made_units count seed reclen seg) }
    ensures few_records { (count seed reclen seg : ℕ) → count ≤ 100000 →
        record_count (made_units count seed reclen seg) ≤ 25 * count }
    ensures few_words { (count seed reclen seg : ℕ) → count ≤ 100000 →
        word_count (made_units count seed reclen seg) ≤ 256 * count }
    ensures few_cuts { (count seed reclen seg : ℕ) → count ≤ 100000 →
        made_cuts count seed reclen seg ≤ record_count (made_units count seed reclen seg) }
{}

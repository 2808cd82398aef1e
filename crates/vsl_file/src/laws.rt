//! The laws of a file's content. A law is a function that does nothing.

ghost use Rattle.std.specs.Prelude.{◌≡◌, ◌<◌, ◌≤◌, ◌++◌, ℕ, List, length, slice_index};
ghost use Rattle.std.specs.List.{AllByRecursion};
ghost use Rattle.vsl_record.specs.Unit.{Log};
ghost use Rattle.vsl_words.specs.declared.version.Version.{Version};
ghost use Rattle.vsl_record.specs.Words.{IsUnitOf};
ghost use Rattle.vsl_file.specs.File.{FileEnding, Whole, IsFile, HoldsWhole, file_header_of, log_bytes_of, most_bytes};

/// A file's bytes determine its units and its ending.
pub fn one_content()
    ensures { (bytes : List ℕ) (us vs : Log) (d e : FileEnding) → IsFile bytes us d →
        IsFile bytes vs e → (us ≡ vs) × (d ≡ e) }
{}

/// Every list of bytes has units and an ending as a file.
pub fn every_file()
    ensures { (bytes : List ℕ) → ((i : ℕ) → slice_index bytes i < 256) →
        (units : Log) × (ending : FileEnding) × IsFile bytes units ending }
{}

/// The first bytes of a file determine the units that lie whole in them.
pub fn whole_units()
    ensures { (bytes : List ℕ) (us vs : Log) → HoldsWhole bytes us → HoldsWhole bytes vs → us ≡ vs }
{}

/// The header of a version and the bytes of units in it are a file of these units that ends whole.
pub fn written_reads_back()
    ensures { (v : Version) (units : Log) → AllByRecursion (IsUnitOf v) units →
        length (file_header_of v ++ log_bytes_of v units) ≤ most_bytes →
        IsFile (file_header_of v ++ log_bytes_of v units) units Whole }
{}

//! Counting records by themselves.

ghost use Rattle.std.specs.Prelude.{◌≡◌, ◌∷◌, [], ◌++◌, List, OnOk};
ghost use Rattle.vsl_top.specs.Report as report;
ghost use Rattle.vsl_top.specs.Counting.{AreCounted};
ghost use Rattle.vsl_top.specs.inside.Keys.{alone_keys};

use crate::counts::{Counts, text_of};
use log_model::NoMemory;
use vsl_record::{RecordView, RecordsView};
use vsl_select::Viewer;

impl Counts {
    /// Counts a record, where it is shown by itself.
    fn add_one_alone(
        &mut self,
        viewer: &mut Viewer<'_>,
        first_field: bool,
        rec: &RecordView<'_>,
    ) -> Result<(), NoMemory>
        ensures counted { OnOk result ((keys : List report.Key) → AreCounted keys self.old →
            AreCounted (keys ++ alone_keys viewer.old first_field (rec.now ∷ [])) self.new) }
        ensures same { viewer.new ≡ viewer.old }
    {
        if viewer.shows_alone(rec)? {
            self.add(rec.tag(), text_of(first_field, rec))
        } else {
            Ok(())
        }
    }

    /// Counts those of the records that are shown by themselves.
    pub(crate) fn add_alone(
        &mut self,
        viewer: &mut Viewer<'_>,
        first_field: bool,
        records: &RecordsView<'_>,
    ) -> Result<(), NoMemory>
        ensures counted { OnOk result ((keys : List report.Key) → AreCounted keys self.old →
            AreCounted (keys ++ alone_keys viewer.old first_field records.now) self.new) }
        ensures same { viewer.new ≡ viewer.old }
    {
        for i in 0..records.len() {
            self.add_one_alone(viewer, first_field, &records.get(i))?;
        }
        Ok(())
    }
}

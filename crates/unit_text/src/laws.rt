//! Laws: functions that do nothing, for what their clauses say.

ghost use Rattle.std.specs.Prelude.{◌≡◌, ℕ, Bool, List};
ghost use Rattle.vsl_record.specs.Unit.{Log};
ghost use Rattle.run_sources.specs.Sources.{unit_items};
ghost use Rattle.fan_output.specs.Ends.{whole};
ghost use Rattle.unit_text.specs.Units.{converted, units_due};

/// What is due of a log is a log file of its units.
pub fn a_converted_log_is_the_log()
    ensures { (name : List ℕ) (units : Log) (all : Bool) →
        whole (units_due name) (unit_items units) all ≡ converted units }
{}

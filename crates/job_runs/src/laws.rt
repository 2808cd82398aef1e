//! Laws: functions that do nothing, for what their clauses say.

ghost use Rattle.std.specs.Prelude.{◌≡◌, ℕ, Bool, true, false, List, [], ◌∷◌, Option, Some};
ghost use Rattle.vio.specs.World.{Seen};
ghost use Rattle.vio.specs.Calls.{Call, Did, last_failed, written_by};
ghost use Rattle.vsl_record.specs.Unit.{LogUnit, Log};
ghost use Rattle.ring_layout.specs.declared.history.HistoryItem.{HistoryItem};
ghost use Rattle.ring_layout.specs.Items.{items_of};
ghost use Rattle.traffic_feed.specs.declared.listing.Listing.{Listing};
ghost use Rattle.vsl_file.specs.File.{FileEnding, Whole, is_whole};
ghost use Rattle.tool_words.specs.declared.command.Names.{Names};
ghost use Rattle.tool_words.specs.declared.job.Job.{Job};
ghost use Rattle.run_sources.specs.declared.file_items.FileStop.{FileStop};
ghost use Rattle.run_sources.specs.Sources.{FileCame, FileStopped, unit_items};
ghost use Rattle.run_sources.specs.Told.{TellsLog, named_ending};
ghost use Rattle.fan_output.specs.Ends.{whole};
ghost use Rattle.fan_output.specs.Fan.{Outlet};
ghost use Rattle.job_steps.specs.declared.fault.ToolFault.{ToolFault};
ghost use Rattle.job_steps.specs.Jobs.{file_of, is_on_threads};
ghost use Rattle.job_steps.specs.Queries.{Ask};
ghost use Rattle.job_steps.specs.Steps.{Found, logs_of};
ghost use Rattle.job_runs.specs.declared.record.RunRecord.{RunRecord};
ghost use Rattle.job_runs.specs.Sources.{AreFed, FeedsCame, RecordsCount, RecordsOf};
ghost use Rattle.job_runs.specs.Rows.{FanFor, GroupsShort, JobRan, RanFor, end_answer, job_due, log_answer, stop_answer};
ghost use Rattle.job_runs.specs.Converts.{Converts, WritesConverted};
ghost use Rattle.job_runs.specs.Told.{WritesFedPart, WritesOf, WritesPart, WritesRing};
ghost use Rattle.job_runs.specs.Good.{HasCause, StoppedByLog};

/// A run with a list of one output is a run with that output: over a log, and over feeds, it printed and ended as that does, and is
/// answered so.
pub fn a_list_of_one_is_alone()
    ensures log { (h : ℕ) (recorded : RunRecord) (o : Outlet) (name : List ℕ) (now : Seen)
        (fault : Option ToolFault) (calls : List Call) → last_failed calls ≡ true →
        FanFor (h ∷ []) (FileCame h) (λ why cs met. FileStopped h why cs met now)
        (RecordsCount recorded) (o ∷ []) name fault calls →
        RanFor (h ∷ []) (FileCame h) (λ why cs met. FileStopped h why cs met now)
        (RecordsCount recorded) o.sink o.due (log_answer name) fault calls }
    ensures feeds { (job : Job) (listings : List Listing) (recorded : RunRecord) (o : Outlet)
        (name : List ℕ) (fault : Option ToolFault) (calls : List Call) → last_failed calls ≡ true →
        FanFor [] (λ cs. FeedsCame job listings recorded) (λ why cs met. ⊥)
        (RecordsOf [] job recorded) (o ∷ []) name fault calls →
        RanFor [] (λ cs. FeedsCame job listings recorded) (λ why cs met. ⊥)
        (RecordsOf [] job recorded) o.sink o.due (log_answer name) fault calls }
{}

/// Where a handle told what it had left, a run over its log wrote a part of what is due of that log, and without a fault all
/// of it; so it did where the log stopped in a way that names the file's ending, and that is how the file ends.
pub fn told_logs_are_written()
    ensures writes { (job : Job) (ask : Ask) (h : ℕ) (others : List ℕ) (sink : ℕ) (empty : Bool)
        (units : Log) (ending : FileEnding) (fault : Option ToolFault) (recorded : RunRecord)
        (calls : List Call) (before now : Seen) →
        TellsLog h units ending before → Did calls before now →
        RanFor (h ∷ others) (FileCame h) (λ why cs met. FileStopped h why cs met now)
        (RecordsCount recorded) sink (job_due job ask empty) (end_answer job) fault calls →
        WritesOf sink (job_due job ask empty) fault (unit_items units) (is_whole ending) calls }
    ensures stops { (job : Job) (ask : Ask) (h : ℕ) (others : List ℕ) (sink : ℕ) (empty : Bool)
        (units : Log) (ending : FileEnding) (fault : Option ToolFault) (recorded : RunRecord)
        (calls : List Call) (before now : Seen) (why : FileStop) (named : FileEnding) →
        TellsLog h units ending before → Did calls before now →
        RanFor (h ∷ others) (FileCame h) (λ why cs met. FileStopped h why cs met now)
        (RecordsCount recorded) sink (job_due job ask empty) (end_answer job) fault calls →
        fault ≡ Some (stop_answer (file_of job) why) → named_ending why ≡ Some named →
        (ending ≡ named) × (written_by sink calls ≡ whole (job_due job ask empty) (unit_items units)
        (is_whole ending)) }
{}

/// Where a handle told what it had left, a run that converts its log wrote a part of a log file of its units: all of it without a
/// fault, for which that log is whole, and where the log stopped in a way that names the file's ending, and that is how it ends.
pub fn converted_logs_are_written()
    ensures { (names : Names) (h sink : ℕ) (units : Log) (ending : FileEnding)
        (fault : Option ToolFault) (recorded : RunRecord) (calls : List Call) (before now : Seen) →
        TellsLog h units ending before → Did calls before now →
        Converts names h sink now fault recorded calls →
        WritesConverted names.input sink units ending fault calls }
{}

/// A run over feeds in a stated order wrote a part of what is due of all that a reader meets of them, and without a fault all of
/// it; over feeds that threads put, so much of what is due of all that the only reader of the ring took, which is recorded.
pub fn feeds_are_written()
    ensures stated { (job : Job) (ask : Ask) (sink : ℕ) (empty : Bool) (listings : List Listing)
        (fault : Option ToolFault) (recorded : RunRecord) (calls : List Call) →
        is_on_threads job ≡ false →
        RanFor [] (λ cs. FeedsCame job listings recorded) (λ why cs met. ⊥)
        (RecordsOf [] job recorded) sink (job_due job ask empty) (end_answer job) fault calls →
        (log : Log) × (history : List (HistoryItem LogUnit)) × AreFed job listings log history ×
        WritesOf sink (job_due job ask empty) fault (items_of history) true calls }
    ensures live { (job : Job) (ask : Ask) (sink : ℕ) (empty : Bool) (listings : List Listing)
        (fault : Option ToolFault) (recorded : RunRecord) (calls : List Call) →
        is_on_threads job ≡ true →
        RanFor [] (λ cs. FeedsCame job listings recorded) (λ why cs met. ⊥)
        (RecordsOf [] job recorded) sink (job_due job ask empty) (end_answer job) fault calls →
        WritesRing job listings recorded sink (job_due job ask empty) fault calls }
{}

/// A job that had no memory wrote a part of what is due of all that its log has, where that was told, or of all that a reader
/// meets of its feeds.
pub fn short_runs_are_part()
    ensures log { (job : Job) (found : List Found) (h : ℕ) (others : List ℕ) (units : Log)
        (ending : FileEnding) (calls : List Call) (before now : Seen) →
        logs_of found ≡ h ∷ others → TellsLog h units ending before → Did calls before now →
        GroupsShort job found calls →
        WritesPart job found (unit_items units) (is_whole ending) calls }
    ensures feeds { (job : Job) (found : List Found) (calls : List Call) → logs_of found ≡ [] →
        GroupsShort job found calls → WritesFedPart job found calls }
{}

/// Where a run has a fault, of a job or of `convert`, one of its calls failed, or its log stopped it for what that holds: it is no
/// log, is damaged or is too large. A log that its handle told to be whole doesn't.
pub fn faults_have_failed_calls()
    ensures cause { (job : Job) (fault : ToolFault) (recorded : RunRecord) (found : List Found)
        (calls : List Call) (now : Seen) →
        JobRan job now (Some fault) recorded found calls →
        HasCause (logs_of found) (file_of job) fault calls now }
    ensures convert { (names : Names) (h sink : ℕ) (fault : ToolFault) (recorded : RunRecord)
        (calls : List Call) (now : Seen) →
        Converts names h sink now (Some fault) recorded calls →
        HasCause (h ∷ []) names.input fault calls now }
    ensures whole { (h : ℕ) (name : List ℕ) (fault : ToolFault) (units : Log) (calls : List Call)
        (before now : Seen) →
        TellsLog h units Whole before → Did calls before now →
        ¬ (StoppedByLog h name fault calls now) }
{}

//! Laws: functions that do nothing, for what their clauses say.

ghost use Rattle.std.specs.Prelude.{◌≡◌, ◌⊎◌, ℕ, Bool, true, false, is_some, List, None, Ok, Some};
ghost use Rattle.log_model.specs.Faults.{HasNewFault};
ghost use Rattle.vio.specs.World.{CallKind, Creating, HasStreams, Opening, Reading, Seen, Writing};
ghost use Rattle.vio.specs.Calls.{none_failed};
ghost use Rattle.vsl_record.specs.Unit.{Log};
ghost use Rattle.vsl_file.specs.File.{FileEnding, Whole};
ghost use Rattle.traffic_feed.specs.declared.listing.Listing.{Listing};
ghost use Rattle.feed_files.specs.Feeds.{AreListings, FeedsHold};
ghost use Rattle.txn_rows.specs.Grouping.{is_raw};
ghost use Rattle.txn_partition.specs.Partition.{Regular, Calm};
ghost use Rattle.tool_words.specs.declared.command.Command.TheVariants.{ForTool, ForConvert};
ghost use Rattle.tool_words.specs.declared.command.Names.{Names};
ghost use Rattle.tool_words.specs.declared.job.Job.{Job};
ghost use Rattle.tool_words.specs.Command.{command_of};
ghost use Rattle.tool_words.specs.Job.{job_of};
ghost use Rattle.job_steps.specs.declared.fault.ToolFault.TheVariants.{NoOpen, ReadFault, WriteFault};
ghost use Rattle.job_steps.specs.Good.{AreGoodSteps};
ghost use Rattle.run_sources.specs.Sources.{unit_items};
ghost use Rattle.fan_output.specs.Ends.{whole};
ghost use Rattle.job_steps.specs.Jobs.{is_counting, is_on_threads, options_of};
ghost use Rattle.job_steps.specs.Queries.{Ask};
ghost use Rattle.job_steps.specs.Steps.{steps_of};
ghost use Rattle.job_runs.specs.Rows.{job_due};
ghost use Rattle.varnish_tools.specs.declared.outcome.Outcome.{Outcome};
ghost use Rattle.varnish_tools.specs.Theorem.{IsFaithful, PrintsPlain};
ghost use Rattle.varnish_tools.specs.Told.{PrintsConverted, PrintsCounted, PrintsFeeds, PrintsLog, PrintsRing, TellsInput, TellsNamed, WasStopped, parted_text};

use feed_files::{feeds_are_listings_or_have_a_fault, told_feeds_are_read};
use job_runs::{
    converted_logs_are_written, faults_have_failed_calls, feeds_are_written, told_logs_are_written,
};
use job_steps::good_steps_pass;
use txn_partition::groups_are_the_partition;

/// Where words name a log, and there was no fault, the text of the log's groups was printed, and nothing else: the plain case of
/// the main theorem follows from it.
pub fn plain_logs_are_printed()
    ensures { (words : List (List ℕ)) (outcome : Outcome) (before now : Seen) →
        HasStreams before → IsFaithful words outcome before now →
        PrintsPlain words outcome before now }
{
    told_logs_are_written();
}

/// Where the world told what the log of a job holds, OUT gained a part of what is due of that log: all of it without a fault, for
/// which the log is whole, or completes as many groups as are kept, and where the fault says how it ends; or a step stopped the job
/// before its run, by the calls of the work.
pub fn told_logs_are_printed()
    ensures { (words : List (List ℕ)) (outcome : Outcome) (job : Job) (units : Log)
        (ending : FileEnding) (before now : Seen) →
        job_of words ≡ Ok job → is_some job.file ≡ true → is_counting job.tool ≡ false →
        HasStreams before → TellsInput job units ending before →
        (p : IsFaithful words outcome before now) → WasStopped words outcome p.works.work ⊎
        PrintsLog job outcome.fault units ending before now }
{
    told_logs_are_written();
}

/// Where the world told what the log holds that words ask to be converted, OUT gained a part of a log file of its units: all of it
/// without a fault, for which that log is whole, and where the fault says how it ends; or a step stopped the work before its run.
pub fn told_logs_are_converted()
    ensures { (words : List (List ℕ)) (outcome : Outcome) (names : Names) (units : Log)
        (ending : FileEnding) (before now : Seen) →
        command_of words ≡ Ok (ForConvert names) → HasStreams before →
        TellsNamed names.input units ending before →
        (p : IsFaithful words outcome before now) → WasStopped words outcome p.works.work ⊎
        PrintsConverted names outcome.fault units ending before now }
{
    converted_logs_are_written();
}

/// Where the world told what the feeds of a job hold, OUT gained a part of what is due of all that a reader meets of their
/// listings in the order that the job states, and without a fault all of it; on threads of all that the one reader of the ring
/// took; and without a fault standard error the messages of what was met. Or a step stopped the job before its run.
pub fn told_feeds_are_printed()
    ensures stated { (words : List (List ℕ)) (outcome : Outcome) (job : Job)
        (contents : List (List ℕ)) (listings : List Listing) (before now : Seen) →
        job_of words ≡ Ok job → is_some job.file ≡ false → is_counting job.tool ≡ false →
        is_on_threads job ≡ false → HasStreams before →
        FeedsHold before job.feeds contents → AreListings job.reclen job.seg contents listings →
        (p : IsFaithful words outcome before now) → WasStopped words outcome p.works.work ⊎
        PrintsFeeds job outcome.fault listings before now }
    ensures live { (words : List (List ℕ)) (outcome : Outcome) (job : Job)
        (contents : List (List ℕ)) (listings : List Listing) (before now : Seen) →
        job_of words ≡ Ok job → is_some job.file ≡ false → is_counting job.tool ≡ false →
        is_on_threads job ≡ true → HasStreams before →
        FeedsHold before job.feeds contents → AreListings job.reclen job.seg contents listings →
        (p : IsFaithful words outcome before now) → WasStopped words outcome p.works.work ⊎
        PrintsRing job outcome.fault outcome.run listings before now }
{
    feeds_are_listings_or_have_a_fault();
    told_feeds_are_read();
    feeds_are_written();
}

/// Where the world told what the feeds of varnishstat hold, standard output gained a part of the counters of their listings, and
/// without a fault all of it; or a step stopped the job before its run.
pub fn told_counters_are_printed()
    ensures { (words : List (List ℕ)) (outcome : Outcome) (job : Job) (contents : List (List ℕ))
        (listings : List Listing) (before now : Seen) →
        job_of words ≡ Ok job → is_counting job.tool ≡ true → FeedsHold before job.feeds contents →
        AreListings job.reclen job.seg contents listings →
        (p : IsFaithful words outcome before now) → WasStopped words outcome p.works.work ⊎
        PrintsCounted job outcome.fault outcome.run listings before now }
{
    feeds_are_listings_or_have_a_fault();
    told_feeds_are_read();
}

/// Words whose job needs nothing that it doesn't have, over a whole log or over feeds, have no fault where no call failed; nor have
/// those that ask for a whole log to be converted.
pub fn good_words_have_no_fault()
    ensures tool { (words : List (List ℕ)) (outcome : Outcome) (job : Job) (before now : Seen) →
        job_of words ≡ Ok job → HasStreams before →
        AreGoodSteps before (steps_of (Ok (ForTool job))) →
        (is_some job.file ≡ true → is_counting job.tool ≡ false →
        (units : Log) × TellsInput job units Whole before) →
        (p : IsFaithful words outcome before now) → none_failed p.works.work ≡ true →
        outcome.fault ≡ None }
    ensures convert { (words : List (List ℕ)) (outcome : Outcome) (names : Names) (units : Log)
        (before now : Seen) →
        command_of words ≡ Ok (ForConvert names) → HasStreams before →
        TellsNamed names.input units Whole before →
        (p : IsFaithful words outcome before now) → none_failed p.works.work ≡ true →
        outcome.fault ≡ None }
{
    good_steps_pass();
    faults_have_failed_calls();
}

/// A fault says that a file couldn't be opened or created, that a read failed or that a write failed, only where the count of
/// such calls rose under the very name that it says. Where no count rose, no call of the work failed.
pub fn faults_are_counted()
    ensures opened { (words : List (List ℕ)) (outcome : Outcome) (before now : Seen)
        (name : List ℕ) →
        HasStreams before → IsFaithful words outcome before now →
        outcome.fault ≡ Some (NoOpen name) →
        HasNewFault (before.faults Opening name) (now.faults Opening name) ⊎
        HasNewFault (before.faults Creating name) (now.faults Creating name) }
    ensures read { (words : List (List ℕ)) (outcome : Outcome) (before now : Seen) (name : List ℕ) →
        HasStreams before → IsFaithful words outcome before now →
        outcome.fault ≡ Some (ReadFault name) →
        HasNewFault (before.faults Reading name) (now.faults Reading name) }
    ensures written { (words : List (List ℕ)) (outcome : Outcome) (before now : Seen)
        (name : List ℕ) →
        HasStreams before → IsFaithful words outcome before now →
        outcome.fault ≡ Some (WriteFault name) →
        HasNewFault (before.faults Writing name) (now.faults Writing name) }
    ensures quiet { (words : List (List ℕ)) (outcome : Outcome) (before now : Seen) →
        HasStreams before → (p : IsFaithful words outcome before now) →
        ((kind : CallKind) (name : List ℕ) →
        ¬ (HasNewFault (before.faults kind name) (now.faults kind name))) →
        none_failed p.works.work ≡ true }
{}

/// Of a log that is told whole, and that keeps within the limit and the timeout of a job that groups, what is due is what is
/// written of its partition: of the transactions that Begins and Links join.
pub fn regular_logs_are_parted()
    ensures { (job : Job) (ask : Ask) (empty : Bool) (units : Log) →
        is_raw job.grouping ≡ false → Regular units job.grouping → Calm units (options_of job) →
        whole (job_due job ask empty) (unit_items units) true ≡ parted_text job ask empty units }
{
    groups_are_the_partition();
}

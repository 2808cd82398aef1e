//! Laws: functions that do nothing, for what their clauses say.

ghost use Rattle.std.specs.Prelude.{List, Result};
ghost use Rattle.vio.specs.World.{Seen};
ghost use Rattle.vio.specs.Calls.{Call, Did, SomeFailed};
ghost use Rattle.vio.specs.Steps.{Stopped};
ghost use Rattle.tool_words.specs.declared.command.Command.{Command};
ghost use Rattle.tool_words.specs.declared.fault.UsageFault.{UsageFault};
ghost use Rattle.job_steps.specs.declared.fault.ToolFault.{ToolFault};
ghost use Rattle.job_steps.specs.Good.{AreGoodSteps};
ghost use Rattle.job_steps.specs.Steps.{Passes, Stops, steps_of};

use traffic_feed::one_listing;

/// In a world that tells what its files hold, only a call that failed stops steps that have what they need.
pub fn good_steps_pass()
    ensures { (stated : Result Command UsageFault) (fault : ToolFault) (calls : List Call)
        (before now : Seen) →
        AreGoodSteps before (steps_of stated) → Did calls before now →
        Stopped Passes Stops (steps_of stated) fault calls → SomeFailed calls }
{
    one_listing();
}

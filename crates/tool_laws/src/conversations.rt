// What a script that is answered step by step makes of its calls. The law is the contract of a function that does
// nothing.
ghost use Rattle.std.specs.Prelude.{◌≡◌, [], List, Some};
ghost use Rattle.kr_base.specs.declared.ids.ConnId.{ConnId};
ghost use Rattle.client_core.specs.declared.reply.Reply.{Reply};
ghost use Rattle.service_events.specs.service_tables.specs.State.{State};
ghost use Rattle.tool_script.specs.declared.command.Command.{Command};
ghost use Rattle.tool_script.specs.declared.steps.ScriptEnd.{ScriptEnd};
ghost use Rattle.tool_script.specs.declared.steps.ToolStep.TheVariants as step;
ghost use Rattle.tool_script.specs.Script.{print, script, step_after};
ghost use Rattle.tool_laws.specs.Conversations.{AreAnswered, AreSteps};

/// If each call that `Script::next` returns is answered, and it takes the reply, until it returns an end, then
/// the calls of the script are answered one after the other, and the end is what `print` says of the replies.
/// So the other laws are true of what `Script::next` returns.
pub fn answered_steps_are_those_of_the_script()
    ensures calls { (command : Command) (caller : ConnId) (state last : State)
        (replies : List Reply) (end : ScriptEnd) → AreSteps command caller [] state replies last
        → step_after command replies ≡ Some (step.End end)
        → AreAnswered caller state (script command replies) replies last }
    ensures ends { (command : Command) (replies : List Reply) (end : ScriptEnd)
        → step_after command replies ≡ Some (step.End end) → print command replies ≡ Some end }
{}

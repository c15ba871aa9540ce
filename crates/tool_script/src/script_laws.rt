// Laws of the definition of a script. Each law is the contract of a function that does nothing.
ghost use Rattle.std.specs.Prelude.{◌≡◌, ◌++◌, ◌∷◌, [], ℕ, List, length, not, slice_get, Some};
ghost use Rattle.std.specs.Option.{is_some};
ghost use Rattle.client_core.specs.declared.reply.Reply.{Reply};
ghost use Rattle.secret_calls.specs.declared.call.Call.{Call};
ghost use Rattle.tool_script.specs.declared.command.Command.{Command};
ghost use Rattle.tool_script.specs.declared.steps.ScriptEnd.{ScriptEnd};
ghost use Rattle.tool_script.specs.declared.steps.ToolStep.TheVariants as step;
ghost use Rattle.tool_script.specs.Script.{script, print, step_after};

/// A script has a next call exactly if it has no end yet. Its end stays, whatever replies follow.
pub fn a_script_goes_on_or_ends()
    ensures one { (command : Command) (replies : List Reply)
        → is_some (slice_get (script command replies) (length replies))
        ≡ not (is_some (print command replies)) }
    ensures last { (command : Command) (replies more : List Reply) (end : ScriptEnd)
        → print command replies ≡ Some end → print command (replies ++ more) ≡ Some end }
{}

/// The first call needs no reply, and a further reply adds the call that is sent next and nothing else; at the end it adds
/// nothing. So the calls that are sent are those of the script.
pub fn a_script_grows_by_its_next_call()
    ensures first { (command : Command) (call : Call)
        → step_after command [] ≡ Some (step.Send call) → script command [] ≡ call ∷ [] }
    ensures sent { (command : Command) (replies : List Reply) (reply : Reply) (call : Call)
        → step_after command (replies ++ reply ∷ []) ≡ Some (step.Send call)
        → script command (replies ++ reply ∷ []) ≡ script command replies ++ call ∷ [] }
    ensures ended { (command : Command) (replies : List Reply) (reply : Reply) (end : ScriptEnd)
        → step_after command (replies ++ reply ∷ []) ≡ Some (step.End end)
        → script command (replies ++ reply ∷ []) ≡ script command replies }
{}

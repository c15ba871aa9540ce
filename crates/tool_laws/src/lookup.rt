// What `lookup` prints. The law is the contract of a function that does nothing.
ghost use Rattle.std.specs.Prelude.{◌≡◌, ℕ, List, Some};
ghost use Rattle.kr_base.specs.declared.attributes.AttrValue.{AttrValue};
ghost use Rattle.kr_base.specs.declared.ids.ConnId.{ConnId};
ghost use Rattle.client_core.specs.declared.reply.Reply.{Reply};
ghost use Rattle.service_events.specs.service_tables.specs.State.{State};
ghost use Rattle.tool_script.specs.declared.command.Command.TheVariants as command;
ghost use Rattle.tool_script.specs.declared.steps.ScriptEnd.{ScriptEnd};
ghost use Rattle.tool_script.specs.Script.{print, script};
ghost use Rattle.tool_laws.specs.Conversations.{AreAnswered, AreReturns};
ghost use Rattle.tool_laws.specs.Lookup.{IsLookedUp};
ghost use Rattle.tool_laws.specs.Matches.{locked_items, open_items};
ghost use Rattle.tool_laws.specs.Ready.{IsReady};

use kr_names::a_path_is_that_of_its_name;

/// If no reply is an error, `lookup` prints the value of the first item that matches in an unlocked
/// collection, as it is. Without such an item it prints nothing, and ends with `Locked` if an item of a
/// locked collection matches, or else with `NotFound`.
pub fn lookup_prints_the_first_match()
    ensures { (caller : ConnId) (state last : State) (wanted : List (List ℕ × AttrValue))
        (replies : List Reply) (end : ScriptEnd) → IsReady state
        → AreAnswered caller state (script (command.Lookup wanted) replies) replies last
        → AreReturns replies → print (command.Lookup wanted) replies ≡ Some end
        → IsLookedUp state.collections (open_items wanted state.collections)
        (locked_items wanted state.collections) end }
{
    a_path_is_that_of_its_name();
}

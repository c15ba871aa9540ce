// What `clear` leaves. The law is the contract of a function that does nothing.
ghost use Rattle.std.specs.Prelude.{◌≡◌, ℕ, [], List, length, codes, Some};
ghost use Rattle.kr_base.specs.declared.attributes.AttrValue.{AttrValue};
ghost use Rattle.kr_base.specs.declared.ids.ConnId.{ConnId};
ghost use Rattle.client_core.specs.declared.reply.Reply.{Reply};
ghost use Rattle.service_events.specs.service_tables.specs.State.{State};
ghost use Rattle.tool_script.specs.declared.command.Command.TheVariants as command;
ghost use Rattle.tool_script.specs.declared.steps.ScriptEnd.{ScriptEnd};
ghost use Rattle.tool_script.specs.Script.{counted, done, print, script};
ghost use Rattle.tool_laws.specs.Clear.{AreGone};
ghost use Rattle.tool_laws.specs.Conversations.{AreAnswered, AreReturns};
ghost use Rattle.tool_laws.specs.Matches.{open_items};
ghost use Rattle.tool_laws.specs.Ready.{IsReady};

use kr_names::a_path_is_that_of_its_name;

/// If no reply is an error, `clear` leaves none of the items that matched in unlocked collections, so that
/// none matches there, and prints how many they were.
pub fn clear_leaves_no_match()
    ensures gone { (caller : ConnId) (state last : State) (wanted : List (List ℕ × AttrValue))
        (replies : List Reply) (end : ScriptEnd) → IsReady state
        → AreAnswered caller state (script (command.Clear wanted) replies) replies last
        → AreReturns replies → print (command.Clear wanted) replies ≡ Some end
        → AreGone last.collections (open_items wanted state.collections) }
    ensures none { (caller : ConnId) (state last : State) (wanted : List (List ℕ × AttrValue))
        (replies : List Reply) (end : ScriptEnd) → IsReady state
        → AreAnswered caller state (script (command.Clear wanted) replies) replies last
        → AreReturns replies → print (command.Clear wanted) replies ≡ Some end
        → open_items wanted last.collections ≡ [] }
    ensures printed { (caller : ConnId) (state last : State) (wanted : List (List ℕ × AttrValue))
        (replies : List Reply) (end : ScriptEnd) → IsReady state
        → AreAnswered caller state (script (command.Clear wanted) replies) replies last
        → AreReturns replies → print (command.Clear wanted) replies ≡ Some end
        → end ≡ done (counted (codes "cleared") (length (open_items wanted state.collections))) }
{
    a_path_is_that_of_its_name();
}

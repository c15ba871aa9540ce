// What `store` leaves. The law is the contract of a function that does nothing.
ghost use Rattle.std.specs.Prelude.{◌≡◌, ℕ, [], List, Some};
ghost use Rattle.kr_base.specs.declared.attributes.AttrValue.{AttrValue};
ghost use Rattle.kr_base.specs.declared.ids.ConnId.{ConnId};
ghost use Rattle.client_core.specs.declared.reply.Reply.{Reply};
ghost use Rattle.service_events.specs.service_tables.specs.State.{State};
ghost use Rattle.tool_script.specs.declared.command.Command.TheVariants as command;
ghost use Rattle.tool_script.specs.declared.steps.ScriptEnd.{ScriptEnd};
ghost use Rattle.tool_script.specs.Script.{done, print, script};
ghost use Rattle.tool_laws.specs.Conversations.{AreAnswered, AreReturns};
ghost use Rattle.tool_laws.specs.Ready.{IsReady};
ghost use Rattle.tool_laws.specs.Store.{LeavesItem};

/// If no reply is an error, `store` leaves an item with its label, its attributes and its secret in the
/// collection that the alias `default` stands for, and prints nothing.
pub fn store_leaves_its_item()
    ensures left { (caller : ConnId) (state last : State) (label : List ℕ)
        (attributes : List (List ℕ × AttrValue)) (secret : List ℕ) (replies : List Reply)
        (end : ScriptEnd) → IsReady state
        → AreAnswered caller state (script (command.Store label attributes secret) replies) replies
        last → AreReturns replies → print (command.Store label attributes secret) replies ≡ Some end
        → LeavesItem label attributes secret state last }
    ensures printed { (caller : ConnId) (state last : State) (label : List ℕ)
        (attributes : List (List ℕ × AttrValue)) (secret : List ℕ) (replies : List Reply)
        (end : ScriptEnd) → IsReady state
        → AreAnswered caller state (script (command.Store label attributes secret) replies) replies
        last → AreReturns replies → print (command.Store label attributes secret) replies ≡ Some end
        → end ≡ done [] }
{}

// A law of the definitions of changes. It is the contract of a function that does nothing.
ghost use Rattle.std.specs.Prelude.{ℕ, ◌≤◌, List};
ghost use Rattle.prompt_state.specs.declared.row.Prompts.{Prompts};
ghost use Rattle.prompt_state.specs.Prompts.{AreGiven, AreRising};
ghost use Rattle.prompt_state.specs.Changes.{Change, completions};

/// Completed is sent at most once for a prompt, whatever changes come, if the numbers of the
/// prompts that are there rise and are below the next one.
pub fn a_prompt_completes_once()
    ensures { (prompts : Prompts) (changes : List Change) (number : ℕ)
        → AreGiven prompts.next prompts.rows → AreRising prompts.rows
        → completions number changes prompts ≤ 1 }
{}

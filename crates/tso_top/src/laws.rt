//! What the files ask for, whatever runs.

ghost use Rattle.std.specs.Prelude.{◌≡◌, ◌≤◌, [], ℕ, List, Some, length};
ghost use Rattle.first_form.specs.Form.{TenTokens};
ghost use Rattle.tso_outside.specs.Views.{Files, held};
ghost use Rattle.tso_status.specs.declared.status.Status.{Status};
ghost use Rattle.tso_status.specs.declared.status.Status.TheVariants.{Done};
ghost use Rattle.tso_top.specs.Commands.{Command, Compile, Outcome, source_limit};

/// The files ask for one status of a command.
pub const fn files_ask_for_one_status()
    ensures { (c : Command) (files : Files) (s t : Status) (lines others : List ℕ) → Outcome c files s lines → Outcome c files t others → s ≡ t }
{}

/// Where IN holds a file of the form within the limit, `compile` is asked for Done.
pub const fn form_is_asked_for()
    ensures { (files : Files) (input output bytes : List ℕ) (n : ℕ) → held files input ≡ Some bytes → length bytes ≤ source_limit
        → TenTokens bytes n → Outcome (Compile input output) files Done [] }
{}

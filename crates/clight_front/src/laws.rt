//! What the bytes of a file are, whatever runs.

ghost use Rattle.std.specs.Prelude.{ℕ, List};
ghost use Rattle.clight_lang.specs.MainAlone.{returned};
ghost use Rattle.clight_lang.specs.Meaning.{ProgramOf};
ghost use Rattle.clight_lang.specs.WellMade.{IsWellMade};
ghost use Rattle.first_form.specs.Form.{TenTokens};
ghost use Rattle.clight_front.specs.Fronts.{HasProgram};
ghost use Rattle.clight_front.specs.Laws.{AnswersAreAlone};

/// The bytes of a file have one answer: one program, or one cause for which they have none.
pub const fn files_have_one_answer()
    ensures { AnswersAreAlone }
{}

/// The program that bytes have is made well.
pub const fn programs_are_well_made()
    ensures { (bytes : List ℕ) (p : ProgramOf) → HasProgram bytes p → IsWellMade p }
{}

/// The bytes of `int main(void) { return N; }` have the program that returns the number.
pub const fn form_returns_its_number()
    ensures { (bytes : List ℕ) (n : ℕ) → TenTokens bytes n → HasProgram bytes (returned n) }
{}

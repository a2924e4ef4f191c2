//! What holds of the assembly that returns a number, whatever code makes it.
ghost use Rattle.std.specs.Prelude.{◌≡◌, ◌≤◌, ℕ};
ghost use Rattle.x86_text.specs.Printed.{printed};
ghost use Rattle.first_pass.specs.Assembled.{parts_returning, text_of};

/// Its printed form is the seven lines, where the number is printed without a sign.
pub fn the_text_has_seven_lines()
    ensures { (number : ℕ) → number ≤ 2147483647 → printed (parts_returning number) ≡ text_of number }
{}

//! What stands around a statement.

ghost use Rattle.std.specs.Prelude.{◌≡◌};
ghost use Rattle.clight_typing.specs.Statements.{in_loop, in_switch};
ghost use Rattle.clight_statements.specs.StatementsOf.{around_of};

/// What stands around a statement: the type of its function's result, and whether `break` and
/// `continue` have something to leave.
#[derive(Clone, Copy, PartialEq, Eq, Debug)]
pub struct Around {
    pub result_type: usize,
    pub breaks: bool,
    pub continues: bool,
}

impl Around {
    /// What stands around the body of a loop.
    pub fn in_loop(self) -> Around
        ensures { around_of result ≡ in_loop (around_of self) }
    {
        Around {
            result_type: self.result_type,
            breaks: true,
            continues: true,
        }
    }

    /// What stands around the groups of a `switch`.
    pub fn in_switch(self) -> Around
        ensures { around_of result ≡ in_switch (around_of self) }
    {
        Around {
            result_type: self.result_type,
            breaks: true,
            continues: self.continues,
        }
    }
}

ghost use Rattle.std.specs.Prelude.{◌≡◌};
ghost use Rattle.parser_checks.specs.Places as places;

/// What stands around a place of a program.
#[derive(Clone, Copy, Debug, PartialEq, Eq)]
pub struct Around {
    /// A loop or a block of the same method, class or program.
    pub in_loop: bool,
    /// A rescue clause of the same method, block, class or program.
    pub in_clause: bool,
    /// No class body without a method or a block between.
    pub may_return: bool,
    /// A method without a class body between.
    pub in_method: bool,
    /// A method.
    pub in_definition: bool,
    /// The place of the word that opens the method around, 0 where none is.
    pub opening: u32,
}

impl Around {
    /// Around a program there is nothing.
    pub fn program() -> Around
        ensures { result ≡ places.program }
    {
        Around {
            in_loop: false,
            in_clause: false,
            may_return: true,
            in_method: false,
            in_definition: false,
            opening: 0,
        }
    }

    /// Inside of a `while` or `until`.
    pub fn within_loop(self) -> Around
        ensures { result ≡ places.within_loop self }
    {
        Around {
            in_loop: true,
            ..self
        }
    }

    /// Inside of a `for`.
    pub fn within_for(self) -> Around
        ensures { result ≡ places.within_for self }
    {
        Around {
            in_loop: true,
            in_clause: false,
            ..self
        }
    }

    /// Inside of a block or a lambda.
    pub fn within_block(self) -> Around
        ensures { result ≡ places.within_block self }
    {
        Around {
            in_loop: true,
            in_clause: false,
            may_return: true,
            ..self
        }
    }

    /// Inside of a rescue clause.
    pub fn within_clause(self) -> Around
        ensures { result ≡ places.within_clause self }
    {
        Around {
            in_clause: true,
            ..self
        }
    }

    /// Inside of the method whose opening word is at that place.
    pub fn method(opening: u32) -> Around
        ensures { result ≡ places.method opening }
    {
        Around {
            in_loop: false,
            in_clause: false,
            may_return: true,
            in_method: true,
            in_definition: true,
            opening,
        }
    }

    /// In the body of a class or module.
    pub fn class_body(self) -> Around
        ensures { result ≡ places.class_body self }
    {
        Around {
            in_loop: false,
            in_clause: false,
            may_return: false,
            in_method: false,
            ..self
        }
    }
}

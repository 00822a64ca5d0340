use rite_code::Code;
use std::marker::Model;

/// A program in which no check of the verifier fails. Nothing is kept beside it.
#[derive(Debug, Drop)]
pub struct Verified {
    code: Code,
}

impl Model for Verified {
    ghost use Rattle.rite_code.specs.Code.{Program};

    ghost Value = { Program };

    ghost use Rattle.code_verifier.specs.Verified.{IsVerified};

    ghost view = { λ v. v.code };

    ghost invariant = { λ v. IsVerified v.code };
}

impl Verified {
    ghost use Rattle.std.specs.Prelude.{◌≡◌};
    ghost use Rattle.code_verifier.specs.Verified.{IsVerified};

    /// A program in which no check fails.
    pub fn new(code: Code) -> Verified
        requires { IsVerified code }
        ensures { result ≡ code }
    {
        Verified { code }
    }

    /// The program.
    pub fn code(&self) -> &Code
        ensures value { result.now ≡ self.now }
        ensures verified { IsVerified self.now }
    {
        &self.code
    }

    /// The program, owned.
    pub fn into_code(self) -> Code
        ensures value { result ≡ self }
        ensures verified { IsVerified self }
    {
        self.code
    }
}

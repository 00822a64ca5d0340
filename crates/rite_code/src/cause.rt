ghost use Rattle.std.specs.Prelude.{◌≡◌};

/// Why code isn't verified.
#[derive(Clone, Copy, Debug, PartialEq, Eq)]
pub enum Cause {
    Opcode,
    Cut,
    Extended,
    Register,
    Pool,
    Symbol,
    Child,
    Jump,
    Upvar,
    Enter,
    Place,
    Use,
    Fall,
    Catch,
}

impl Cause {
    ghost use Rattle.rite_code.specs.Cause.{name_of};

    /// The name, as it prints.
    pub fn name(self) -> &'static [u8]
        ensures { result.now ≡ name_of self }
    {
        match self {
            Cause::Opcode => b"Opcode",
            Cause::Cut => b"Cut",
            Cause::Extended => b"Extended",
            Cause::Register => b"Register",
            Cause::Pool => b"Pool",
            Cause::Symbol => b"Symbol",
            Cause::Child => b"Child",
            Cause::Jump => b"Jump",
            Cause::Upvar => b"Upvar",
            Cause::Enter => b"Enter",
            Cause::Place => b"Place",
            Cause::Use => b"Use",
            Cause::Fall => b"Fall",
            Cause::Catch => b"Catch",
        }
    }
}

ghost use Rattle.std.specs.Prelude.{◌≡◌};

/// What has a limit.
#[derive(Clone, Copy, Debug, PartialEq, Eq)]
pub enum Count {
    Source,
    Parameters,
    Registers,
    Pool,
    Symbols,
    Children,
    Code,
    File,
}

impl Count {
    ghost use Rattle.rb_syntax.specs.Count.{name_of};

    /// The name, as it prints.
    pub fn name(self) -> &'static [u8]
        ensures { result.now ≡ name_of self }
    {
        match self {
            Count::Source => b"Source",
            Count::Parameters => b"Parameters",
            Count::Registers => b"Registers",
            Count::Pool => b"Pool",
            Count::Symbols => b"Symbols",
            Count::Children => b"Children",
            Count::Code => b"Code",
            Count::File => b"File",
        }
    }
}

ghost use Rattle.std.specs.Prelude.{◌≡◌};

/// A construct that is refused: one of Ruby outside the language, or one that isn't built.
#[derive(Clone, Copy, Debug, PartialEq, Eq)]
pub enum Outside {
    Float,
    Rational,
    Imaginary,
    WideInteger,
    Regexp,
    Backquote,
    PercentLiteral,
    Ambiguous,
    QuotedLabel,
    NonAsciiName,
    SquigglyHeredoc,
    ClassVariable,
    SpecialGlobal,
    MatchOperator,
    SafeNavigation,
    DoubleSplat,
    Redo,
    FileKeyword,
    LineKeyword,
    EncodingKeyword,
    BeginBlock,
    EndBlock,
    KeywordParameter,
    EndlessMethod,
    GlobalAlias,
    FlipFlop,
    SplatClause,
    PatternMatch,
    /// A construct of the language that the generator doesn't build.
    Unbuilt,
}

impl Outside {
    ghost use Rattle.rb_syntax.specs.Outside.{name_of};

    /// The name, as it prints.
    pub fn name(self) -> &'static [u8]
        ensures { result.now ≡ name_of self }
    {
        match self {
            Outside::Float => b"Float",
            Outside::Rational => b"Rational",
            Outside::Imaginary => b"Imaginary",
            Outside::WideInteger => b"WideInteger",
            Outside::Regexp => b"Regexp",
            Outside::Backquote => b"Backquote",
            Outside::PercentLiteral => b"PercentLiteral",
            Outside::Ambiguous => b"Ambiguous",
            Outside::QuotedLabel => b"QuotedLabel",
            Outside::NonAsciiName => b"NonAsciiName",
            Outside::SquigglyHeredoc => b"SquigglyHeredoc",
            Outside::ClassVariable => b"ClassVariable",
            Outside::SpecialGlobal => b"SpecialGlobal",
            Outside::MatchOperator => b"MatchOperator",
            Outside::SafeNavigation => b"SafeNavigation",
            Outside::DoubleSplat => b"DoubleSplat",
            Outside::Redo => b"Redo",
            Outside::FileKeyword => b"FileKeyword",
            Outside::LineKeyword => b"LineKeyword",
            Outside::EncodingKeyword => b"EncodingKeyword",
            Outside::BeginBlock => b"BeginBlock",
            Outside::EndBlock => b"EndBlock",
            Outside::KeywordParameter => b"KeywordParameter",
            Outside::EndlessMethod => b"EndlessMethod",
            Outside::GlobalAlias => b"GlobalAlias",
            Outside::FlipFlop => b"FlipFlop",
            Outside::SplatClause => b"SplatClause",
            Outside::PatternMatch => b"PatternMatch",
            Outside::Unbuilt => b"Unbuilt",
        }
    }
}

ghost use Rattle.std.specs.Prelude.{◌≡◌};
ghost use Rattle.code_outline.specs.Makers as made;

/// What an instruction makes of a child: a lambda, a block, a method, or the body of a class or module that it
/// runs.
#[derive(Clone, Copy, Debug, PartialEq, Eq)]
pub enum Purpose {
    Lambda,
    Block,
    Method,
    ClassBody,
}

impl Purpose {
    /// Whether the locals of the body around can be reached: those of a block or a lambda.
    pub fn is_function(self) -> bool
        ensures { result ≡ made.is_function self }
    {
        match self {
            Purpose::Lambda | Purpose::Block => true,
            Purpose::Method | Purpose::ClassBody => false,
        }
    }
}

/// The instruction that makes a body: the number of the body that it stands in, its place there, and what it
/// makes.
#[derive(Clone, Copy, Debug, PartialEq, Eq)]
pub struct Maker {
    pub body: u32,
    pub at: u32,
    pub purpose: Purpose,
}

/// The body around a block or a lambda, by its maker. None of any other body.
pub(crate) fn around(maker: Option<Maker>) -> Option<u32>
    ensures { result ≡ made.around maker }
{
    let maker = maker?;
    if maker.purpose.is_function() {
        Some(maker.body)
    } else {
        None
    }
}

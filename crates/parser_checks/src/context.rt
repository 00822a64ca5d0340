ghost use Rattle.std.specs.Prelude.{◌≡◌};
ghost use Rattle.parser_checks.specs.Places as places;

use crate::around::Around;
use crate::found::{Found, noted};
use std::alloc::Global;

/// What a rule asks of the place where a tree stands.
#[derive(Clone, Copy)]
pub struct Context {
    pub alloc: Global,
    pub around: Around,
}

impl Context {
    fn with(self, around: Around) -> Context
        ensures { result.around ≡ around }
    {
        Context { around, ..self }
    }

    pub fn inside_loop(self) -> Context
        ensures { result.around ≡ places.within_loop self.around }
    {
        self.with(self.around.within_loop())
    }

    pub fn inside_for(self) -> Context
        ensures { result.around ≡ places.within_for self.around }
    {
        self.with(self.around.within_for())
    }

    pub fn inside_block(self) -> Context
        ensures { result.around ≡ places.within_block self.around }
    {
        self.with(self.around.within_block())
    }

    pub fn inside_clause(self) -> Context
        ensures { result.around ≡ places.within_clause self.around }
    {
        self.with(self.around.within_clause())
    }

    pub fn inside_class(self) -> Context
        ensures { result.around ≡ places.class_body self.around }
    {
        self.with(self.around.class_body())
    }

    /// Inside of the method whose opening word is at that place.
    pub fn inside_method(self, opening: u32) -> Context
        ensures { result.around ≡ places.method opening }
    {
        self.with(Around::method(opening))
    }

    /// Finds a class or module inside of a method, at the place of the method.
    pub fn opens_class(self, best: Found) -> Found
        ensures { result ≡ places.opens_class self.around best }
    {
        noted(!self.around.in_definition, self.around.opening, best)
    }

    /// Finds an assignment to a constant inside of a method, at the place of the method.
    pub fn assigns(self, constant: bool, best: Found) -> Found
        ensures { result ≡ places.assigns self.around constant best }
    {
        let may = !(self.around.in_definition && constant);
        noted(may, self.around.opening, best)
    }
}

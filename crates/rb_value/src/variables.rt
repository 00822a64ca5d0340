//! The instance variables of an object.
ghost use Rattle.std.specs.Prelude.{◌≡◌, ◌<◌, [], length, IfSome, OnOk, OnErr};
ghost use Rattle.std.specs.List.{position};
ghost use Rattle.rb_value.specs.Variables.{is_named, variable_of, with_variable};

use crate::value::{SymId, Value};
use rb_base::List;
use std::alloc::{AllocError, Global};
use std::marker::Model;

/// An instance variable that was set.
#[derive(Clone, Copy, Debug, PartialEq, Eq)]
pub struct Variable {
    pub name: SymId,
    pub value: Value,
}

/// Instance variables in the order in which they were first set, seen as their list. No name is there twice.
#[derive(Debug, Drop)]
pub struct Variables {
    list: Vec<Variable>,
}

impl Model for Variables {
    ghost use Rattle.std.specs.Prelude as prelude;
    ghost use Rattle.rb_value.specs.declared.variables.Variable.{Variable as Item};

    ghost Value = { prelude.List Item };

    ghost view = { λ v. v.list.items };
}

/// The place of the variable of that name.
fn place_of(variables: &[Variable], name: SymId) -> Option<usize>
    ensures place { result ≡ position (is_named name) variables.now }
    ensures within { IfSome result (λ place. place < length variables.now) }
{
    variables.iter().position(
        |variable: &Variable| -> bool
            ensures { result ≡ is_named name variable.now }
        { variable.name == name },
    )
}

/// The value of the variable of that name, where it was set.
pub(crate) fn value_in(variables: &[Variable], name: SymId) -> Option<Value>
    ensures { result ≡ variable_of variables.now name }
{
    match place_of(variables, name) {
        Some(place) => Some(variables[place].value),
        None => None,
    }
}

impl Variables {
    /// No variables. It takes no memory.
    pub fn new(alloc: Global) -> Variables
        ensures { result ≡ [] }
    {
        Variables {
            list: Vec::new(alloc),
        }
    }

    /// The variables as a slice.
    pub fn as_slice(&self) -> &[Variable]
        ensures { result.now ≡ self.now }
    {
        self.list.as_slice()
    }

    /// The value of the variable of that name, where it was set.
    pub fn get(&self, name: SymId) -> Option<Value>
        ensures { result ≡ variable_of self.now name }
    {
        value_in(self.list.as_slice(), name)
    }

    /// Sets the variable of that name: one that was set before keeps its place, and a new one goes last. Where memory
    /// runs out all is as before.
    pub fn set(&mut self, name: SymId, value: Value) -> Result<(), AllocError>
        ensures ok { OnOk result (self.new ≡ with_variable self.old name value) }
        ensures err { OnErr result (self.new ≡ self.old) }
    {
        let variable = Variable { name, value };
        match place_of(self.list.as_slice(), name) {
            Some(place) => {
                self.list[place] = variable;
                Ok(())
            }
            None => {
                self.list.push(variable)?;
                Ok(())
            }
        }
    }
}

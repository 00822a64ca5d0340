//! Classes, modules and methods, and what `defined?` tells.
ghost use Rattle.std.specs.Prelude.{◌≡◌, IfOk};
ghost use Rattle.rb_value.specs.declared.value.Value.TheVariants.{Obj};
ghost use Rattle.rb_value.specs.declared.value.ObjId.{ObjId};
ghost use Rattle.vm_parts.specs.Answering as answering;
ghost use Rattle.vm_parts.specs.Beside as beside;
ghost use Rattle.vm_parts.specs.Code.{symbol};
ghost use Rattle.vm_steps.specs.Answering as acts;
ghost use Rattle.vm_steps.specs.Definitions as defining;

use def_core::{BindKind, Cause};
use rb_value::{CoreClass, ObjId, SymId, Value};
use std::alloc::AllocError;
use vm_parts::entering::{Entered, open_body};
use vm_parts::exits::{after, only};
use vm_parts::flow::Flow;
use vm_parts::heap::Given;
use vm_parts::loaded::Loaded;
use vm_parts::parts::{Parts, behind, put};
use vm_parts::run_calls::open_space;
use vm_parts::vm_frames::Frame;

/// The class in which a method is defined: the innermost around the text.
fn around(hot: &Frame, parts: &Parts) -> ObjId {
    parts.heap.class_around(parts.frames.activation().classes)
}

/// OCLASS: Object or StandardError.
pub fn core_class(hot: &mut Frame, parts: &mut Parts, a: u16, b: u16) -> Result<Flow, AllocError>
    ensures { IfOk result (λ flow. answering.Puts (beside.of parts.old) hot.old (Obj (defining.core_class b)) a flow
        hot.new (beside.of parts.new)) }
{
    let class = if b == 0 {
        CoreClass::Object
    } else {
        CoreClass::StandardError
    };
    let id = parts.heap.class_object(class);
    put(hot, parts, a, Value::Obj(id));
    Ok(Flow::Stays)
}

/// CLASS: the class of that name in the scope in register `a`, under the parent in the next one.
pub fn class_of_name(
    code: &Loaded,
    hot: &mut Frame,
    parts: &mut Parts,
    a: u16,
    name: u32,
) -> Result<Flow, AllocError>
    ensures { IfOk result (λ flow. answering.AnswersBy code.now (beside.of parts.old) hot.old (defining.class_opened
        parts.old.heap (beside.value_at (beside.of parts.old) hot.old a) (symbol code.now name) (beside.value_at
        (beside.of parts.old) hot.old (beside.next_register a))) a flow hot.new (beside.of parts.new)) }
{
    let scope = parts.get(hot, a);
    let parent = parts.get(hot, behind(a));
    let given = parts.heap.open_class(scope, code.symbol(name), parent)?;
    after(code, hot, parts, given, a)
}

/// MODULE: the module of that name in the scope in register `a`.
pub fn module_of_name(
    code: &Loaded,
    hot: &mut Frame,
    parts: &mut Parts,
    a: u16,
    name: u32,
) -> Result<Flow, AllocError>
    ensures { IfOk result (λ flow. answering.AnswersBy code.now (beside.of parts.old) hot.old (defining.module_opened
        parts.old.heap (beside.value_at (beside.of parts.old) hot.old a) (symbol code.now name)) a flow hot.new
        (beside.of parts.new)) }
{
    let scope = parts.get(hot, a);
    let given = parts.heap.open_module(scope, code.symbol(name))?;
    after(code, hot, parts, given, a)
}

/// Enters the body of a class or module for register `a`.
fn enter_space(
    code: &Loaded,
    hot: &mut Frame,
    parts: &mut Parts,
    a: u16,
    body: u32,
    class: ObjId,
) -> Result<Flow, AllocError>
    ensures { IfOk result (λ flow. defining.EntersSpace code.now (beside.of parts.old) hot.old a body class flow hot.new
        (beside.of parts.new)) }
{
    let number = parts.next_activation()?;
    let activation = open_space(&mut parts.heap, parts.frames.activation(), class)?;
    let arguments = parts.frames.no_arguments();
    parts.frames.push_caller(hot, a)?;
    let entered = Entered {
        body,
        outer: None,
        block: None,
        binds: BindKind::Method,
    };
    open_body(code, hot, parts, number, &activation, entered, &arguments)?;
    Ok(Flow::Stays)
}

/// The body of the class or module in a register is entered, where the fiber has room for one level more.
fn enter_object(
    code: &Loaded,
    hot: &mut Frame,
    parts: &mut Parts,
    a: u16,
    body: u32,
    class: ObjId,
) -> Result<Flow, AllocError>
    ensures { IfOk result (λ flow. defining.EntersObject code.now (beside.of parts.old) hot.old a body class flow
        hot.new (beside.of parts.new)) }
{
    if parts.frames.is_full() {
        let given = parts.heap.fail(Cause::StackTooDeep)?;
        after(code, hot, parts, given, a)
    } else {
        enter_space(code, hot, parts, a, body, class)
    }
}

/// EXEC: the body of the class or module in register `a`.
pub fn execute_body(
    code: &Loaded,
    hot: &mut Frame,
    parts: &mut Parts,
    a: u16,
    body: u32,
) -> Result<Flow, AllocError>
    ensures { IfOk result (λ flow. defining.Executes code.now (beside.of parts.old) hot.old a body flow hot.new
        (beside.of parts.new)) }
{
    match parts.heap.space_in(parts.get(hot, a)) {
        Some(class) => enter_object(code, hot, parts, a, body, class),
        None => {
            let given = parts.heap.wrong_value(b"EXEC")?;
            after(code, hot, parts, given, a)
        }
    }
}

/// DEF: a method of the class or module in register `a`.
pub fn method(
    code: &Loaded,
    hot: &mut Frame,
    parts: &mut Parts,
    a: u16,
    name: u32,
    body: u32,
) -> Result<Flow, AllocError>
    ensures { IfOk result (λ flow. answering.AnswersBy code.now (beside.of parts.old) hot.old (defining.method_defined
        (beside.of parts.old) (beside.value_at (beside.of parts.old) hot.old a) (symbol code.now name) body) a flow
        hot.new (beside.of parts.new)) }
{
    let name = code.symbol(name);
    let classes = parts.frames.activation().classes;
    let given = match parts.heap.space_in(parts.get(hot, a)) {
        Some(class) => parts.heap.define_method(class, name, body, classes)?,
        None => parts.heap.wrong_value(b"DEF")?,
    };
    after(code, hot, parts, given, a)
}

/// ALIAS: another name of a method.
pub fn alias(
    code: &Loaded,
    hot: &mut Frame,
    parts: &mut Parts,
    new: u32,
    old: u32,
) -> Result<Flow, AllocError>
    ensures { IfOk result (λ flow. defining.Aliases code.now (beside.of parts.old) hot.old (symbol code.now new) (symbol
        code.now old) flow hot.new (beside.of parts.new)) }
{
    let class = around(hot, parts);
    let given = parts
        .heap
        .alias_method(class, code.symbol(new), code.symbol(old))?;
    only(code, hot, parts, given)
}

/// UNDEF: a name that finds no method any more.
pub fn undefine(
    code: &Loaded,
    hot: &mut Frame,
    parts: &mut Parts,
    name: u32,
) -> Result<Flow, AllocError>
    ensures { IfOk result (λ flow. defining.Undefines code.now (beside.of parts.old) hot.old (symbol code.now name) flow
        hot.new (beside.of parts.new)) }
{
    let class = around(hot, parts);
    let given = parts.heap.undefine_method(class, code.symbol(name))?;
    only(code, hot, parts, given)
}

/// SCLASS: the singleton class of register `a`.
pub fn singleton(
    code: &Loaded,
    hot: &mut Frame,
    parts: &mut Parts,
    a: u16,
) -> Result<Flow, AllocError>
    ensures { IfOk result (λ flow. answering.AnswersBy code.now (beside.of parts.old) hot.old (defining.singleton
        parts.old.heap (beside.value_at (beside.of parts.old) hot.old a)) a flow hot.new (beside.of parts.new)) }
{
    let value = parts.get(hot, a);
    let given = parts.heap.singleton_class(value)?;
    after(code, hot, parts, given, a)
}

/// TCLASS: the class in which a method is defined.
pub fn target_class(hot: &mut Frame, parts: &mut Parts, a: u16) -> Result<Flow, AllocError>
    ensures { IfOk result (λ flow. (class : ObjId) × answering.Puts (beside.of parts.old) hot.old (Obj class) a flow
        hot.new (beside.of parts.new)) }
{
    let class = around(hot, parts);
    put(hot, parts, a, Value::Obj(class));
    Ok(Flow::Stays)
}

/// Whether a global variable was set.
fn is_set(parts: &Parts, name: SymId) -> bool
    ensures { result ≡ defining.is_set (beside.of parts.now) name }
{
    match parts.globals.get(&name.0).copied() {
        Some(_) => true,
        None => false,
    }
}

/// What `defined?` tells of a global variable.
fn tell_global(parts: &mut Parts, name: SymId) -> Result<Given, AllocError>
    ensures told { IfOk result (λ given. answering.Follows (defining.global_told (beside.of parts.old) name)
        parts.old.heap given parts.new.heap) }
    ensures alone { beside.of parts.new ≡ acts.with_heap (beside.of parts.old) parts.new.heap }
{
    let is_set = is_set(parts, name);
    parts.heap.tell(is_set, b"global-variable")
}

/// What `defined?` tells of a name.
fn told_of_name(
    hot: &Frame,
    parts: &mut Parts,
    a: u16,
    kind: u16,
    name: SymId,
) -> Result<Given, AllocError>
    ensures told { IfOk result (λ given. defining.TellsName (beside.of parts.old) hot.now a kind name given
        parts.new.heap) }
    ensures alone { beside.of parts.new ≡ acts.with_heap (beside.of parts.old) parts.new.heap }
{
    let own = parts.get(hot, 0);
    let value = parts.get(hot, a);
    match kind {
        0 => parts.heap.tell_variable(own, name),
        1 => tell_global(parts, name),
        2 => parts
            .heap
            .tell_constant(parts.frames.activation().classes, name),
        3 => parts.heap.tell_constant_in(value, name),
        4 => parts.heap.tell_method(own, own, name),
        _ => parts.heap.tell_method(own, value, name),
    }
}

/// DEFINED: what `defined?` tells, by its second operand.
pub fn tell(
    code: &Loaded,
    hot: &mut Frame,
    parts: &mut Parts,
    a: u16,
    kind: u16,
    name: u32,
) -> Result<Flow, AllocError>
    ensures { IfOk result (λ flow. defining.Tells code.now (beside.of parts.old) hot.old a kind (symbol code.now name)
        flow hot.new (beside.of parts.new)) }
{
    let running = *parts.frames.activation();
    let given = if kind < 6 {
        told_of_name(hot, parts, a, kind, code.symbol(name))?
    } else if kind == 6 {
        parts.heap.tell_block(running.block)?
    } else {
        parts
            .heap
            .tell_super(running.receiver, running.owner, running.name)?
    };
    after(code, hot, parts, given, a)
}

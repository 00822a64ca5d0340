//! Cores as text, for tests. A call of a name alone has a `~` before it.
use crate::page::{Done, Page, Printed, array, forms, hash, integer, items, maybe, name};
use ir_core::{BeginForm, Body, Clause, Local, Parameters, Receiver, Term};
use rb_base::Bytes;
use rb_syntax::{Branch, DefinedKind, Item};

/// A local: a hidden one by its number, the parameter of a pattern by its place.
fn local(page: &mut Page, variable: &Local) -> Done {
    match variable {
        Local::Named(word) => name(page, b"", word, b""),
        Local::Hidden(number) => {
            let number = format!(in page.alloc; "%{number}")?;
            page.put(number.as_bytes())
        }
        Local::Pattern(place) => {
            let place = format!(in page.alloc; "%p{place}")?;
            page.put(place.as_bytes())
        }
        Local::Rest => page.put(b"%rest"),
    }
}

fn locals(page: &mut Page, list: &Vec<Local>, behind: &[u8]) -> Done {
    for variable in list {
        page.put(b" ")?;
        local(page, variable)?;
        page.put(behind)?;
    }
    Ok(())
}

fn maybe_local(page: &mut Page, before: &[u8], variable: &Option<Local>) -> Done {
    match variable {
        Some(variable) => {
            page.put(before)?;
            local(page, variable)
        }
        None => Ok(()),
    }
}

fn parameters(page: &mut Page, list: &Parameters) -> Done {
    page.put(b"{|")?;
    locals(page, &list.required, b"")?;
    locals(page, &list.optional, b"?")?;
    maybe_local(page, b" *", &list.rest)?;
    locals(page, &list.post, b"")?;
    maybe_local(page, b" &", &list.block)
}

fn function<T: Printed>(page: &mut Page, body: &Body<Box<T>>) -> Done {
    parameters(page, &body.parameters)?;
    page.put(b";")?;
    locals(page, &body.locals, b"")?;
    page.put(b"| ")?;
    body.form.print(page)?;
    page.put(b"}")
}

/// The body of a class or module, with its locals where it has some.
fn plain_body<T: Printed>(page: &mut Page, body: &Body<Box<T>>) -> Done {
    if !body.locals.is_empty() {
        page.put(b" |;")?;
        locals(page, &body.locals, b"")?;
        page.put(b"|")?;
    }
    page.put(b" ")?;
    body.form.print(page)
}

fn one<T: Printed>(page: &mut Page, before: &[u8], core: &Box<T>) -> Done {
    page.put(before)?;
    core.print(page)?;
    page.put(b")")
}

fn two<T: Printed>(
    page: &mut Page,
    before: &[u8],
    left: &Box<T>,
    between: &[u8],
    right: &Box<T>,
) -> Done {
    page.put(before)?;
    left.print(page)?;
    page.put(between)?;
    right.print(page)?;
    page.put(b")")
}

fn set<T: Printed>(page: &mut Page, word: &Bytes, value: &Box<T>) -> Done {
    name(page, b"(", word, b" = ")?;
    value.print(page)?;
    page.put(b")")
}

fn set_local<T: Printed>(page: &mut Page, variable: &Local, value: &Box<T>) -> Done {
    page.put(b"(")?;
    local(page, variable)?;
    page.put(b" = ")?;
    value.print(page)?;
    page.put(b")")
}

fn in_constant<T: Printed>(page: &mut Page, of: &Box<T>, word: &Bytes) -> Done {
    of.print(page)?;
    name(page, b"::", word, b"")
}

fn set_in_constant<T: Printed>(page: &mut Page, of: &Box<T>, word: &Bytes, value: &Box<T>) -> Done {
    page.put(b"(")?;
    in_constant(page, of, word)?;
    page.put(b" = ")?;
    value.print(page)?;
    page.put(b")")
}

fn listed<T: Printed>(page: &mut Page, before: &[u8], between: &[u8], list: &Vec<Box<T>>) -> Done {
    page.put(before)?;
    forms(page, between, list)?;
    page.put(b")")
}

fn choice<T: Printed>(page: &mut Page, branches: &Vec<Branch<Box<T>>>, otherwise: &Box<T>) -> Done {
    page.put(b"(if")?;
    for branch in branches {
        page.put(b" ")?;
        branch.test.print(page)?;
        page.put(b" ")?;
        branch.body.print(page)?;
    }
    page.put(b" else ")?;
    otherwise.print(page)?;
    page.put(b")")
}

fn receiver<T: Printed>(page: &mut Page, receiver: &Receiver<Box<T>>) -> Done {
    match receiver {
        Receiver::To(core) => {
            core.print(page)?;
            page.put(b".")
        }
        Receiver::Bare => page.put(b"~"),
        Receiver::OnSelf => Ok(()),
    }
}

fn call<T: Printed>(
    page: &mut Page,
    to: &Receiver<Box<T>>,
    word: &Bytes,
    list: &Vec<Item<Box<T>>>,
) -> Done {
    receiver(page, to)?;
    name(page, b"", word, b"(")?;
    items(page, list)?;
    page.put(b")")
}

fn block_call<T: Printed>(
    page: &mut Page,
    to: &Receiver<Box<T>>,
    word: &Bytes,
    list: &Vec<Item<Box<T>>>,
    block: &Box<T>,
) -> Done {
    call(page, to, word, list)?;
    page.put(b"&")?;
    block.print(page)
}

fn passed<T: Printed>(page: &mut Page, word: &[u8], list: &Vec<Item<Box<T>>>) -> Done {
    page.put(word)?;
    items(page, list)?;
    page.put(b")")
}

fn super_call<T: Printed>(
    page: &mut Page,
    list: &Vec<Item<Box<T>>>,
    block: &Option<Box<T>>,
) -> Done {
    passed(page, b"super(", list)?;
    maybe(page, b"&", block)
}

fn lambda<T: Printed>(page: &mut Page, inner: &Body<Box<T>>) -> Done {
    page.put(b"->")?;
    function(page, inner)
}

fn clause<T: Printed>(page: &mut Page, clause: &Clause<Box<T>>) -> Done {
    page.put(b" rescue [")?;
    forms(page, b" ", &clause.classes)?;
    page.put(b"]")?;
    maybe(page, b" ", &clause.target)?;
    page.put(b" ")?;
    clause.body.print(page)
}

fn begin<T: Printed>(page: &mut Page, form: &BeginForm<Box<T>>) -> Done {
    page.put(b"(begin ")?;
    form.body.print(page)?;
    for part in &form.clauses {
        clause(page, part)?;
    }
    maybe(page, b" else ", &form.otherwise)?;
    maybe(page, b" ensure ", &form.ensure)?;
    page.put(b")")
}

fn define<T: Printed>(page: &mut Page, word: &Bytes, inner: &Body<Box<T>>) -> Done {
    name(page, b"(def ", word, b" ")?;
    function(page, inner)?;
    page.put(b")")
}

fn define_on<T: Printed>(page: &mut Page, of: &Box<T>, word: &Bytes, inner: &Body<Box<T>>) -> Done {
    page.put(b"(def ")?;
    of.print(page)?;
    name(page, b".", word, b" ")?;
    function(page, inner)?;
    page.put(b")")
}

fn class<T: Printed>(
    page: &mut Page,
    scope: &Option<Box<T>>,
    word: &Bytes,
    parent: &Option<Box<T>>,
    body: &Body<Box<T>>,
) -> Done {
    page.put(b"(class ")?;
    scoped(page, scope, word)?;
    maybe(page, b" < ", parent)?;
    plain_body(page, body)?;
    page.put(b")")
}

fn singleton_class<T: Printed>(page: &mut Page, of: &Box<T>, body: &Body<Box<T>>) -> Done {
    page.put(b"(class << ")?;
    of.print(page)?;
    plain_body(page, body)?;
    page.put(b")")
}

fn scoped<T: Printed>(page: &mut Page, scope: &Option<Box<T>>, word: &Bytes) -> Done {
    match scope {
        Some(core) => in_constant(page, core, word),
        None => name(page, b"", word, b""),
    }
}

fn module<T: Printed>(
    page: &mut Page,
    scope: &Option<Box<T>>,
    word: &Bytes,
    body: &Body<Box<T>>,
) -> Done {
    page.put(b"(module ")?;
    scoped(page, scope, word)?;
    plain_body(page, body)?;
    page.put(b")")
}

fn defined<T: Printed>(
    page: &mut Page,
    kind: DefinedKind,
    word: &Bytes,
    of: &Option<Box<T>>,
) -> Done {
    let kind = format!(in page.alloc; "(defined {kind:?} ")?;
    page.put(kind.as_bytes())?;
    page.put(word.as_slice())?;
    maybe(page, b" ", of)?;
    page.put(b")")
}

fn element<T: Printed>(page: &mut Page, of: &Box<T>, place: i32) -> Done {
    of.print(page)?;
    let place = format!(in page.alloc; "<{place}>")?;
    page.put(place.as_bytes())
}

fn rest<T: Printed>(page: &mut Page, of: &Box<T>, from: u8, post: u8) -> Done {
    of.print(page)?;
    let places = format!(in page.alloc; "<{from}:{post}>")?;
    page.put(places.as_bytes())
}

fn tail<T: Printed>(page: &mut Page, of: &Box<T>, from: u8, count: u8) -> Done {
    of.print(page)?;
    let places = format!(in page.alloc; "<{from};{count}>")?;
    page.put(places.as_bytes())
}

impl Printed for Term {
    #[cycle(print)]
    fn print(&self, page: &mut Page) -> Done {
        match self {
            Term::Nil => page.put(b"nil"),
            Term::True => page.put(b"true"),
            Term::False => page.put(b"false"),
            Term::SelfRef => page.put(b"self"),
            Term::Int(value) => integer(page, *value),
            Term::Str(bytes) => name(page, b"'", bytes, b"'"),
            Term::Sym(word) => name(page, b":", word, b""),
            Term::Local(variable) => local(page, variable),
            Term::Own(variable) => {
                page.put(b"^")?;
                local(page, variable)
            }
            Term::Exception => page.put(b"%exception"),
            Term::SetLocal(variable, value) => set_local(page, variable, value),
            Term::Ivar(word) | Term::Gvar(word) | Term::Const(word) => name(page, b"", word, b""),
            Term::TopConst(word) => name(page, b"::", word, b""),
            Term::SetIvar(word, value) | Term::SetGvar(word, value) | Term::SetConst(word, value) =>
                set(page, word, value),
            Term::InConst(of, word) => in_constant(page, of, word),
            Term::SetInConst(of, word, value) => set_in_constant(page, of, word, value),
            Term::Array(list) => array(page, list),
            Term::Hash(list) => hash(page, list),
            Term::Range {
                from,
                to,
                exclusive: true,
            } => two(page, b"(", from, b"...", to),
            Term::Range { from, to, .. } => two(page, b"(", from, b"..", to),
            Term::Text(list) => listed(page, b"(text ", b" ", list),
            Term::Intern(inner) => one(page, b"(intern ", inner),
            Term::Seq(list) => listed(page, b"(", b"; ", list),
            Term::Cond(branches, otherwise) => choice(page, branches, otherwise),
            Term::And(left, right) => two(page, b"(and ", left, b" ", right),
            Term::Or(left, right) => two(page, b"(or ", left, b" ", right),
            Term::While {
                body_first: true,
                test,
                body,
            } => two(page, b"(do-while ", test, b" ", body),
            Term::While { test, body, .. } => two(page, b"(while ", test, b" ", body),
            Term::Call {
                receiver,
                name,
                items,
            } => call(page, receiver, name, items),
            Term::BlockCall {
                receiver,
                name,
                items,
                block,
            } => block_call(page, receiver, name, items, block),
            Term::Yield(list) => passed(page, b"yield(", list),
            Term::Super(list, block) => super_call(page, list, block),
            Term::Fn(inner) => function(page, &**inner),
            Term::Lambda(inner) => lambda(page, &**inner),
            Term::Begin(form) => begin(page, &**form),
            Term::Return(value) => one(page, b"(return ", value),
            Term::Break(value) => one(page, b"(break ", value),
            Term::Next(value) => one(page, b"(next ", value),
            Term::Retry => page.put(b"(retry)"),
            Term::Def(word, inner) => define(page, word, &**inner),
            Term::DefOn(of, word, inner) => define_on(page, of, word, &**inner),
            Term::Class {
                scope,
                name,
                parent,
                body,
            } => class(page, scope, name, parent, &**body),
            Term::Module { scope, name, body } => module(page, scope, name, &**body),
            Term::SingletonClass(of, body) => singleton_class(page, of, &**body),
            Term::Alias(new, old) => {
                name(page, b"(alias ", new, b" ")?;
                name(page, b"", old, b")")
            }
            Term::Undef(word) => name(page, b"(undef ", word, b")"),
            Term::Defined(kind, word, of) => defined(page, *kind, word, of),
            Term::Item(of, place) => element(page, of, *place),
            Term::Rest { of, from, post } => rest(page, of, *from, *post),
            Term::Tail { of, from, count } => tail(page, of, *from, *count),
        }
    }
}

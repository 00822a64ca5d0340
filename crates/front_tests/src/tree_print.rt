//! Trees as text, for tests. A local is its name; a name that is called without arguments has a `~` before it.
use crate::page::{Done, Page, Printed, array, forms, hash, integer, items, maybe, name};
use parser_tree::{
    Arguments, AssignmentOperator, Definition, Parameter, ParameterList, Piece, PlainBody,
    RescueBody, RestParameter, Scope, TargetList, TreeForm, WhenClause,
};
use rb_base::{Bytes, List};
use rb_syntax::{Branch, Item, Outside};

fn names(page: &mut Page, list: &List<Bytes>) -> Done {
    for name in list.as_slice() {
        page.put(b" ")?;
        page.put(name.as_slice())?;
    }
    Ok(())
}

fn trees<T: Printed>(page: &mut Page, list: &Vec<Box<T>>) -> Done {
    for tree in list {
        page.put(b" ")?;
        tree.print(page)?;
    }
    Ok(())
}

fn pieces<T: Printed>(page: &mut Page, list: &Vec<Piece<Box<T>>>) -> Done {
    for piece in list {
        page.put(b" ")?;
        match piece {
            Piece::Text(bytes) => {
                page.put(b"'")?;
                page.put(bytes.as_slice())?;
                page.put(b"'")?;
            }
            Piece::Interpolation(tree) => tree.print(page)?,
        }
    }
    Ok(())
}

fn arguments<T: Printed>(page: &mut Page, arguments: &Option<Arguments<Box<T>>>) -> Done {
    if let Some(arguments) = arguments {
        page.put(b"(")?;
        items(page, &arguments.items)?;
        maybe(page, b" &", &arguments.block)?;
        page.put(b")")?;
    }
    Ok(())
}

fn parameter<T: Printed>(page: &mut Page, parameter: &Parameter<Box<T>>) -> Done {
    page.put(b" ")?;
    match parameter {
        Parameter::Name(name) => page.put(name.as_slice()),
        Parameter::Pattern(tree) => tree.print(page),
    }
}

fn parameters<T: Printed>(page: &mut Page, list: &ParameterList<Box<T>>) -> Done {
    for required in &list.required {
        parameter(page, required)?;
    }
    for optional in &list.optional {
        page.put(b" ")?;
        page.put(optional.name.as_slice())?;
        page.put(b"=")?;
        optional.value.print(page)?;
    }
    match &list.rest {
        RestParameter::Absent => {}
        RestParameter::Unnamed => page.put(b" *")?,
        RestParameter::Named(name) => {
            page.put(b" *")?;
            page.put(name.as_slice())?;
        }
    }
    for post in &list.post {
        parameter(page, post)?;
    }
    if let Some(name) = &list.block {
        page.put(b" &")?;
        page.put(name.as_slice())?;
    }
    trees(page, &list.outside)
}

fn definition<T: Printed>(page: &mut Page, definition: &Definition<Box<T>>) -> Done {
    page.put(b"{|")?;
    parameters(page, &definition.parameters)?;
    page.put(b";")?;
    names(page, &definition.locals)?;
    page.put(b"| ")?;
    definition.body.print(page)?;
    page.put(b"}")
}

fn block<T: Printed>(page: &mut Page, block: &Option<Definition<Box<T>>>) -> Done {
    match block {
        Some(inner) => definition(page, inner),
        None => Ok(()),
    }
}

fn targets<T: Printed>(page: &mut Page, list: &TargetList<Box<T>>) -> Done {
    page.put(b"<")?;
    trees(page, &list.before)?;
    if list.star {
        page.put(b" *")?;
        maybe(page, b"", &list.rest)?;
    }
    trees(page, &list.after)?;
    page.put(b">")
}

fn begin<T: Printed>(page: &mut Page, body: &RescueBody<Box<T>>) -> Done {
    page.put(b"(begin ")?;
    body.body.print(page)?;
    for clause in &body.clauses {
        page.put(b" rescue")?;
        trees(page, &clause.classes)?;
        maybe(page, b" =>", &clause.target)?;
        page.put(b" ")?;
        clause.body.print(page)?;
    }
    maybe(page, b" else ", &body.otherwise)?;
    maybe(page, b" ensure ", &body.ensure)?;
    page.put(b")")
}

fn scope<T: Printed>(page: &mut Page, scope: &Scope<Box<T>>) -> Done {
    match scope {
        Scope::Innermost => Ok(()),
        Scope::Top => page.put(b"::"),
        Scope::In(tree) => {
            tree.print(page)?;
            page.put(b"::")
        }
    }
}

fn two<T: Printed>(page: &mut Page, word: &[u8], left: &Box<T>, right: &Box<T>) -> Done {
    page.put(b"(")?;
    page.put(word)?;
    page.put(b" ")?;
    left.print(page)?;
    page.put(b" ")?;
    right.print(page)?;
    page.put(b")")
}

fn one<T: Printed>(page: &mut Page, word: &[u8], inner: &Box<T>) -> Done {
    page.put(b"(")?;
    page.put(word)?;
    page.put(b" ")?;
    inner.print(page)?;
    page.put(b")")
}

fn jump<T: Printed>(page: &mut Page, word: &[u8], list: &Vec<Item<Box<T>>>) -> Done {
    page.put(b"(")?;
    page.put(word)?;
    if !list.is_empty() {
        page.put(b" ")?;
    }
    items(page, list)?;
    page.put(b")")
}

fn operator(operator: &AssignmentOperator) -> &'static [u8] {
    match operator {
        AssignmentOperator::Operation(operator) => operator.name(),
        AssignmentOperator::And => b"&&",
        AssignmentOperator::Or => b"||",
    }
}

fn choice<T: Printed>(
    page: &mut Page,
    branches: &Vec<Branch<Box<T>>>,
    otherwise: &Option<Box<T>>,
) -> Done {
    page.put(b"(if")?;
    for branch in branches {
        page.put(b" ")?;
        branch.test.print(page)?;
        page.put(b" ")?;
        branch.body.print(page)?;
    }
    maybe(page, b" else ", otherwise)?;
    page.put(b")")
}

fn unless<T: Printed>(
    page: &mut Page,
    test: &Box<T>,
    body: &Box<T>,
    otherwise: &Option<Box<T>>,
) -> Done {
    page.put(b"(unless ")?;
    test.print(page)?;
    page.put(b" ")?;
    body.print(page)?;
    maybe(page, b" else ", otherwise)?;
    page.put(b")")
}

fn loop_word(until: bool, body_first: bool) -> &'static [u8] {
    match (body_first, until) {
        (true, true) => b"do-until",
        (true, false) => b"do-while",
        (false, true) => b"until",
        (false, false) => b"while",
    }
}

fn each<T: Printed>(page: &mut Page, targets: &Vec<Box<T>>, items: &Box<T>, body: &Box<T>) -> Done {
    page.put(b"(for")?;
    trees(page, targets)?;
    page.put(b" in ")?;
    items.print(page)?;
    page.put(b" ")?;
    body.print(page)?;
    page.put(b")")
}

fn case<T: Printed>(
    page: &mut Page,
    subject: &Option<Box<T>>,
    clauses: &Vec<WhenClause<Box<T>>>,
    otherwise: &Option<Box<T>>,
) -> Done {
    page.put(b"(case")?;
    maybe(page, b" ", subject)?;
    for clause in clauses {
        page.put(b" when")?;
        trees(page, &clause.tests)?;
        page.put(b" ")?;
        clause.body.print(page)?;
    }
    maybe(page, b" else ", otherwise)?;
    page.put(b")")
}

fn define<T: Printed>(
    page: &mut Page,
    singleton: &Option<Box<T>>,
    name: &Bytes,
    inner: &Definition<Box<T>>,
) -> Done {
    page.put(b"(def ")?;
    maybe(page, b"on ", singleton)?;
    page.put(b" ")?;
    page.put(name.as_slice())?;
    page.put(b" ")?;
    definition(page, inner)?;
    page.put(b")")
}

fn class<T: Printed>(
    page: &mut Page,
    around: &Scope<Box<T>>,
    name: &Bytes,
    parent: &Option<Box<T>>,
    body: &PlainBody<Box<T>>,
) -> Done {
    page.put(b"(class ")?;
    scope(page, around)?;
    page.put(name.as_slice())?;
    maybe(page, b" < ", parent)?;
    plain_body(page, body)?;
    page.put(b")")
}

fn singleton_class<T: Printed>(page: &mut Page, of: &Box<T>, body: &PlainBody<Box<T>>) -> Done {
    page.put(b"(class << ")?;
    of.print(page)?;
    plain_body(page, body)?;
    page.put(b")")
}

fn module<T: Printed>(
    page: &mut Page,
    around: &Scope<Box<T>>,
    name: &Bytes,
    body: &PlainBody<Box<T>>,
) -> Done {
    page.put(b"(module ")?;
    scope(page, around)?;
    page.put(name.as_slice())?;
    plain_body(page, body)?;
    page.put(b")")
}

/// The body of a class or module, with its variables where it has some.
fn plain_body<T: Printed>(page: &mut Page, body: &PlainBody<Box<T>>) -> Done {
    if !body.locals.is_empty() {
        page.put(b" |;")?;
        names(page, &body.locals)?;
        page.put(b"|")?;
    }
    page.put(b" ")?;
    body.body.print(page)
}

fn alias(page: &mut Page, new: &Bytes, old: &Bytes) -> Done {
    page.put(b"(alias ")?;
    page.put(new.as_slice())?;
    page.put(b" ")?;
    page.put(old.as_slice())?;
    page.put(b")")
}

fn call<T: Printed>(
    page: &mut Page,
    receiver: &Option<Box<T>>,
    name: &Bytes,
    list: &Option<Arguments<Box<T>>>,
    inner: &Option<Definition<Box<T>>>,
) -> Done {
    match receiver {
        Some(receiver) => {
            receiver.print(page)?;
            page.put(b".")?;
        }
        None => page.put(if list.is_none() { b"~" } else { b"" })?,
    }
    page.put(name.as_slice())?;
    arguments(page, list)?;
    block(page, inner)
}

fn super_call<T: Printed>(
    page: &mut Page,
    list: &Option<Arguments<Box<T>>>,
    inner: &Option<Definition<Box<T>>>,
) -> Done {
    page.put(b"super")?;
    arguments(page, list)?;
    block(page, inner)
}

fn index<T: Printed>(page: &mut Page, of: &Box<T>, list: &Vec<Item<Box<T>>>) -> Done {
    of.print(page)?;
    page.put(b"[")?;
    items(page, list)?;
    page.put(b"]")
}

fn listed_names(page: &mut Page, open: &[u8], list: &List<Bytes>, close: &[u8]) -> Done {
    page.put(open)?;
    names(page, list)?;
    page.put(close)
}

fn text<T: Printed>(page: &mut Page, word: &[u8], list: &Vec<Piece<Box<T>>>) -> Done {
    page.put(word)?;
    pieces(page, list)?;
    page.put(b")")
}

fn statements<T: Printed>(page: &mut Page, list: &Vec<Box<T>>) -> Done {
    page.put(b"(")?;
    forms(page, b"; ", list)?;
    page.put(b")")
}

fn operator_assign<T: Printed>(
    page: &mut Page,
    target: &Box<T>,
    sign: &AssignmentOperator,
    value: &Box<T>,
) -> Done {
    page.put(b"(")?;
    page.put(operator(sign))?;
    page.put(b"= ")?;
    target.print(page)?;
    page.put(b" ")?;
    value.print(page)?;
    page.put(b")")
}

fn multiple_assign<T: Printed>(page: &mut Page, list: &TargetList<Box<T>>, value: &Box<T>) -> Done {
    page.put(b"(= ")?;
    targets(page, list)?;
    page.put(b" ")?;
    value.print(page)?;
    page.put(b")")
}

fn outside<T: Printed>(page: &mut Page, what: Outside, at: u32, parts: &Vec<Box<T>>) -> Done {
    page.put(b"!")?;
    page.put(what.name())?;
    let place = format!(in page.alloc; "@{at}")?;
    page.put(place.as_bytes())?;
    if parts.is_empty() {
        return Ok(());
    }
    page.put(b"(")?;
    trees(page, parts)?;
    page.put(b")")
}

fn scoped<T: Printed>(page: &mut Page, of: &Box<T>, name: &Bytes) -> Done {
    page.put(b"(:: ")?;
    of.print(page)?;
    page.put(b" ")?;
    page.put(name.as_slice())?;
    page.put(b")")
}

fn lambda<T: Printed>(page: &mut Page, inner: &Definition<Box<T>>) -> Done {
    page.put(b"->")?;
    definition(page, inner)
}

impl Printed for TreeForm {
    #[cycle(print)]
    fn print(&self, page: &mut Page) -> Done {
        match self {
            TreeForm::Nil => page.put(b"nil"),
            TreeForm::True => page.put(b"true"),
            TreeForm::False => page.put(b"false"),
            TreeForm::SelfReference => page.put(b"self"),
            TreeForm::Integer(value) => integer(page, *value),
            TreeForm::Text(list) => text(page, b"(str", list),
            TreeForm::Symbol(word) => name(page, b":", word, b""),
            TreeForm::SymbolText(list) => text(page, b"(sym", list),
            TreeForm::Words(list) => listed_names(page, b"%w[", list, b"]"),
            TreeForm::Symbols(list) => listed_names(page, b"%i[", list, b"]"),
            TreeForm::Local(word)
            | TreeForm::InstanceVariable(word)
            | TreeForm::GlobalVariable(word)
            | TreeForm::Constant(word) => name(page, b"", word, b""),
            TreeForm::TopConstant(word) => name(page, b"::", word, b""),
            TreeForm::ScopedConstant(of, word) => scoped(page, of, word),
            TreeForm::Array(list) => array(page, list),
            TreeForm::Hash(list) => hash(page, list),
            TreeForm::Statements(list) => statements(page, list),
            TreeForm::Not(inner) => one(page, b"not", inner),
            TreeForm::Unary(sign, inner) => one(page, sign.name(), inner),
            TreeForm::Operation(left, sign, right) => two(page, sign.name(), left, right),
            TreeForm::And(left, right) => two(page, b"and", left, right),
            TreeForm::Or(left, right) => two(page, b"or", left, right),
            TreeForm::Range {
                from,
                to,
                exclusive: true,
                ..
            } => two(page, b"...", from, to),
            TreeForm::Range { from, to, .. } => two(page, b"..", from, to),
            TreeForm::If {
                branches,
                otherwise,
            } => choice(page, branches, otherwise),
            TreeForm::Unless {
                test,
                body,
                otherwise,
            } => unless(page, test, body, otherwise),
            TreeForm::While {
                until,
                body_first,
                test,
                body,
            } => two(page, loop_word(*until, *body_first), test, body),
            TreeForm::For {
                targets,
                items,
                body,
            } => each(page, targets, items, body),
            TreeForm::Case {
                subject,
                clauses,
                otherwise,
            } => case(page, subject, clauses, otherwise),
            TreeForm::Begin(body) => begin(page, body),
            TreeForm::RescueModifier(left, right) => two(page, b"rescue", left, right),
            TreeForm::Call {
                receiver,
                name,
                arguments,
                block,
            } => call(page, receiver, name, arguments, block),
            TreeForm::Index(of, list) => index(page, of, list),
            TreeForm::Super {
                arguments,
                block,
                ..
            } => super_call(page, arguments, block),
            TreeForm::Yield { items, .. } => jump(page, b"yield", items),
            TreeForm::Defined(inner) => one(page, b"defined?", inner),
            TreeForm::Lambda(inner) => lambda(page, inner),
            TreeForm::Return { items, .. } => jump(page, b"return", items),
            TreeForm::Break { items, .. } => jump(page, b"break", items),
            TreeForm::Next { items, .. } => jump(page, b"next", items),
            TreeForm::Retry { .. } => page.put(b"(retry)"),
            TreeForm::Assign(target, value) => two(page, b"=", target, value),
            TreeForm::OperatorAssign(target, sign, value) => operator_assign(
                page, target, sign, value,
            ),
            TreeForm::MultipleAssign(list, value) => multiple_assign(page, list, value),
            TreeForm::Targets(list) => targets(page, list),
            TreeForm::Define {
                singleton,
                name,
                definition,
            } => define(page, singleton, name, definition),
            TreeForm::Class {
                scope,
                name,
                parent,
                body,
            } => class(page, scope, name, parent, body),
            TreeForm::SingletonClass(of, body) => singleton_class(page, of, body),
            TreeForm::Module { scope, name, body } => module(page, scope, name, body),
            TreeForm::Alias(new, old) => alias(page, new, old),
            TreeForm::Undef(list) => listed_names(page, b"(undef", list, b")"),
            TreeForm::Outside { what, at, parts } => outside(page, *what, *at, parts),
        }
    }
}

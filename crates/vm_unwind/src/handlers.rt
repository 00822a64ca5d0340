//! The handler that takes an exit.
ghost use Rattle.std.specs.Prelude.{◌≡◌};
ghost use Rattle.vm_unwind.specs.Handlers as handling;

use code_instructions::{Handler, IndexedCode};
use rb_value::Exit;

/// Whether a handler covers an index.
fn covers(handler: Handler, index: u32) -> bool
    ensures { result ≡ handling.covers handler index }
{
    handler.begin <= index && index < handler.end
}

/// Whether a handler takes an exit: one of rescue takes exceptions alone, and one of ensure every exit that leaves what
/// it covers.
fn takes(handler: Handler, exit: Exit) -> bool
    ensures { result ≡ handling.takes handler exit }
{
    match exit {
        Exit::Raise(_) => true,
        Exit::Return {
            activation: _,
            value: _,
        }
        | Exit::Break {
            activation: _,
            value: _,
        } => !handler.rescue,
        Exit::Jump {
            activation: _,
            target,
        } => !handler.rescue && !covers(handler, target),
    }
}

/// Where the last of the handlers leads that covers an index and takes an exit. It takes no memory.
fn last_handler(handlers: &[Handler], index: u32, exit: Exit) -> Option<u32>
    ensures { result ≡ handling.last_handler handlers.now index exit }
{
    let mut left = handlers.len();
    'handlers: while left > 0 {
        left -= 1;
        let handler = handlers[left];
        if covers(handler, index) && takes(handler, exit) {
            return Some(handler.target);
        }
    }
    None
}

/// Where an exit goes within a body at an index: the target of the last handler that covers the index and takes the
/// exit. It takes no memory.
pub fn handler(code: &IndexedCode, body: u32, index: u32, exit: Exit) -> Option<u32>
    ensures { result ≡ handling.handler code.now body index exit }
{
    if (body as usize) < code.code().bodies().len() {
        last_handler(code.handlers(body), index, exit)
    } else {
        None
    }
}

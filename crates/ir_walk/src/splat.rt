//! Items that are splats.
ghost use Rattle.std.specs.Prelude.{◌≡◌};
ghost use Rattle.ir_core.specs.View.{term_view};
ghost use Rattle.ir_core.specs.PartsBy as by;
ghost use Rattle.ir_walk.specs.Width as widths;

use ir_core::Core;
use rb_syntax::Item;

fn is_plain(item: &Item<Core>) -> bool
    ensures { result ≡ by.is_plain item.now }
{
    match item {
        Item::Plain(_) => true,
        Item::Splat(_) => false,
    }
}

/// Whether one of the items is a splat.
#[tactic(auto, using(crate::proofs::Items::item_laws))]
pub fn has_splat(items: &[Item<Core>]) -> bool
    ensures { result ≡ widths.has_splat (by.items_by term_view items.now) }
{
    for item in items {
        if !is_plain(item) {
            return true;
        }
    }
    false
}

//! Plans of the iterations over items.
ghost use Rattle.std.specs.Prelude.{◌≡◌};
ghost use Rattle.def_plans.specs.Plan.{plan_of};
ghost use Rattle.iter_items.specs.Stage as over_items;
ghost use Rattle.core_iter.specs.Stage.{stage_of, items};

use crate::iteration::Iteration;
use run_rows::core_calls::Plan;
use run_rows::iter_items::ItemsState;

/// The plan of an iteration over items, as one of all iterations.
pub(crate) fn lift(plan: Plan<ItemsState>) -> Plan<Iteration>
    ensures { plan_of stage_of result ≡ plan_of (λ s. items (over_items.stage_of s)) plan }
{
    match plan {
        Plan::Finishes(value) => Plan::Finishes(value),
        Plan::Fails(cause) => Plan::Fails(cause),
        Plan::Raises(id) => Plan::Raises(id),
        Plan::Sends {
            then,
            receiver,
            name,
            args,
            block,
            public,
        } => Plan::Sends {
            then: Iteration::Items(then),
            receiver,
            name,
            args,
            block,
            public,
        },
        Plan::Calls {
            then,
            callee,
            args,
            block,
        } => Plan::Calls {
            then: Iteration::Items(then),
            callee,
            args,
            block,
        },
        Plan::Writes { then, bytes } => Plan::Writes {
            then: Iteration::Items(then),
            bytes,
        },
        Plan::Reads { then } => Plan::Reads {
            then: Iteration::Items(then),
        },
        Plan::Resumes { then, fiber, args } => Plan::Resumes {
            then: Iteration::Items(then),
            fiber,
            args,
        },
        Plan::Yields { then, args } => Plan::Yields {
            then: Iteration::Items(then),
            args,
        },
    }
}

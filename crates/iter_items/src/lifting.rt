//! Plans of the methods below as plans of methods over items.
ghost use Rattle.std.specs.Prelude.{◌≡◌};
ghost use Rattle.def_plans.specs.Plan.{plan_of};
ghost use Rattle.iter_comparing.specs.Stage as comparing;
ghost use Rattle.iter_items.specs.Stage.{Stage, stage_of, compares, enumerates};

use crate::state::ItemsState;
use iter_comparing::ComparingState;
use iter_enumerators::EnumeratorState;
use rows_items::core_calls::Plan;

/// Where a method below stands, which a method over items stands there, too.
pub(crate) trait Stands {
    ghost stage: { Self → Stage };

    fn as_items(self) -> ItemsState
        ensures { stage_of result ≡ stage self };
}

impl Stands for ComparingState {
    ghost stage = { λ s. compares (comparing.stage_of s) };

    fn as_items(self) -> ItemsState {
        ItemsState::Compares(self)
    }
}

impl Stands for EnumeratorState {
    ghost stage = { λ s. enumerates s };

    fn as_items(self) -> ItemsState {
        ItemsState::Enumerates(self)
    }
}

/// The same plan, which goes on as a method over items.
pub(crate) fn lift<S: Stands>(plan: Plan<S>) -> Plan<ItemsState>
    ensures { plan_of stage_of result ≡ plan_of S.stage plan }
{
    match plan {
        Plan::Finishes(value) => Plan::Finishes(value),
        Plan::Fails(cause) => Plan::Fails(cause),
        Plan::Raises(id) => Plan::Raises(id),
        Plan::Sends {
            then,
            receiver,
            name,
            args,
            block,
            public,
        } => Plan::Sends {
            then: then.as_items(),
            receiver,
            name,
            args,
            block,
            public,
        },
        Plan::Calls {
            then,
            callee,
            args,
            block,
        } => Plan::Calls {
            then: then.as_items(),
            callee,
            args,
            block,
        },
        Plan::Writes { then, bytes } => Plan::Writes {
            then: then.as_items(),
            bytes,
        },
        Plan::Reads { then } => Plan::Reads {
            then: then.as_items(),
        },
        Plan::Resumes { then, fiber, args } => Plan::Resumes {
            then: then.as_items(),
            fiber,
            args,
        },
        Plan::Yields { then, args } => Plan::Yields {
            then: then.as_items(),
            args,
        },
    }
}

//! The rule of the inbox, and what each kind of step tells.
use crate::view::PassView;
use crossbeam_queue::protocol::{Join, Lesson, Outcome, Protocol, Split};

pub struct InboxRule;

impl<A> Protocol<A, PassView<A>> for InboxRule {
    ghost use Rattle.notify_inbox.specs.Rule.{IsInboxState};
    ghost use Rattle.notify_inbox.specs.Views.{all_parts};

    ghost holds = { IsInboxState };

    ghost first = { all_parts };
}

pub(crate) struct Give;

impl<A> Split<PassView<A>> for Give {
    ghost use Rattle.notify_inbox.specs.Views.{less_one_part, poster};

    ghost left = { less_one_part };

    ghost right = { λ _. poster };
}

pub(crate) struct Gather;

impl<A> Join<PassView<A>> for Gather {
    ghost use Rattle.notify_inbox.specs.Views.{with_posts, gathered_away};

    ghost both = { with_posts };

    ghost spent = { gathered_away };
}

pub(crate) struct Post;

impl<A> Outcome<A, PassView<A>> for Post {
    ghost use Rattle.std.specs.Prelude.{◌≡◌, ℕ};
    ghost use Rattle.notify_inbox.specs.Views.{posted};

    ghost then = { λ v x w. (p : ℕ) × (w ≡ posted v p x) };
}

impl<A> Lesson<A, PassView<A>> for Post {
    ghost use Rattle.notify_inbox.specs.Rule.{EndsPosts};

    ghost fact = { EndsPosts };
}

pub(crate) struct Take;

impl<A> Outcome<A, PassView<A>> for Take {
    ghost use Rattle.std.specs.Prelude.{◌≡◌};
    ghost use Rattle.notify_inbox.specs.Views.{taken};

    ghost then = { λ v x w. w ≡ taken v x };
}

impl<A> Lesson<A, PassView<A>> for Take {
    ghost use Rattle.notify_inbox.specs.Rule.{FollowsTaken};

    ghost fact = { FollowsTaken };
}

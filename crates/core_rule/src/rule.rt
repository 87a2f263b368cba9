//! The rule of the table, and what its steps tell.
ghost use Rattle.std.specs.Prelude.{◌≡◌, []};

use crate::view::View;
use atomic_table::{Join, Play, Split, TableRule};
use histories::Keeps;
use std::marker::{Brand, PhantomData};
use word_layout::Layout;

/// The rule of a table whose record states `J` keeps.
pub(crate) struct RuleOf<J> {
    keeps: PhantomData<J>,
}

impl<J: Keeps> TableRule<(), View, Layout> for RuleOf<J> {
    ghost use Rattle.core_rule.specs.Rule.{Holds};
    ghost use Rattle.core_rule.specs.View.{first_view};

    ghost holds = { λ z s. Holds J.kept z s };

    ghost first = { first_view };
}

/// Which kind of step a call makes. A call picks it by `Brand`.
pub(crate) trait Deed {
    ghost use Rattle.core_rule.specs.Kinds.{Kind};

    ghost kind: { Kind };
}

impl Deed for Brand {
    ghost use Rattle.core_rule.specs.Kinds.{load_min_write};

    ghost kind = { load_min_write };
}

/// What a step of this kind tells.
pub(crate) struct Does<J, M> {
    keeps: PhantomData<J>,
    deed: PhantomData<M>,
}

impl<J: Keeps, M: Deed> Play<(), View> for Does<J, M> {
    ghost use Rattle.core_rule.specs.Learnt.{Told};

    ghost then = { λ _ me n after'. (after'.1 ≡ []) × Told J.kept M.kind me.0 n after'.0 };
}

/// How a seat's view splits.
pub(crate) struct Shares;

impl Split<View> for Shares {
    ghost use Rattle.core_rule.specs.Hands.{split_left, split_right};

    ghost left = { split_left };

    ghost right = { split_right };
}

/// How a seat takes in another.
pub(crate) struct TakesIn;

impl Join<View> for TakesIn {
    ghost use Rattle.core_rule.specs.Hands.{joined_view};
    ghost use Rattle.core_rule.specs.View.{spent_view};

    ghost both = { joined_view };

    ghost spent = { spent_view };
}

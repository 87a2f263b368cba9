//! Storing the last statuses of what a transaction has linked.
ghost use Rattle.std.specs.Prelude.{◌≡◌, ◌<◌, ◌≤◌, [], take, length};
ghost use Rattle.word_layout.specs.Size.{places};
ghost use Rattle.core_rule.specs.View.{Write, no_item};
ghost use Rattle.core_rule.specs.Views.{Among};
ghost use Rattle.core_rule.specs.Searching.{Rests, Ends};
ghost use Rattle.core_rule.specs.Hands.{IsReady, StaysReady};
ghost use Rattle.validate_core.specs.Sets.{IsInside, Once};
ghost use Rattle.validate_core.specs.Validating.{Works, Settled};

use crate::sets::Sets;
use core_rule::{Core, Hand, Keeps};

/// Stores the last status of each version, one after another: committed or deleted where the transaction was decided, and
/// else aborted.
pub(crate) fn store_all<J: Keeps>(core: &Core<J>, hand: &mut Hand<J>, sets: &Sets, decided: bool)
    requires ready { IsReady core.now hand.old }
    requires inside { IsInside core.now.size sets.now }
    requires rests { Rests hand.old.view.work.search }
    requires linked { hand.old.view.work.linked ≡ sets.now.writes }
    requires unsettled { hand.old.view.work.settled ≡ [] }
    requires decided { hand.old.view.work.decided ≡ decided }
    requires collected { hand.old.view.work.item ≡ no_item }
    ensures works { Works hand.old.view hand.new.view }
    ensures seen { hand.new.view.seen ≡ hand.old.view.seen }
    ensures settled { Settled sets.now.writes hand.new.view }
    ensures ends { Ends hand.new.view.work }
    ensures decided { hand.new.view.work.decided ≡ decided }
    ensures linked { hand.new.view.work.linked ≡ sets.now.writes }
    ensures stays { StaysReady core.now hand.old hand.new }
{
    store_first(core, hand, sets, sets.count_writes(), decided);
}

/// The same for the first writes alone, so many, which are those that were linked.
pub(crate) fn store_first<J: Keeps>(
    core: &Core<J>,
    hand: &mut Hand<J>,
    sets: &Sets,
    count: usize,
    decided: bool,
)
    requires ready { IsReady core.now hand.old }
    requires count { count ≤ length sets.now.writes }
    requires inside { (u : Write) → Among u (take count sets.now.writes) → u.place < places core.now.size }
    requires once { Once (λ (u : Write). u.record_number) sets.now.writes }
    requires rests { Rests hand.old.view.work.search }
    requires linked { hand.old.view.work.linked ≡ take count sets.now.writes }
    requires unsettled { hand.old.view.work.settled ≡ [] }
    requires decided { hand.old.view.work.decided ≡ decided }
    requires collected { hand.old.view.work.item ≡ no_item }
    ensures works { Works hand.old.view hand.new.view }
    ensures seen { hand.new.view.seen ≡ hand.old.view.seen }
    ensures settled { Settled (take count sets.now.writes) hand.new.view }
    ensures ends { Ends hand.new.view.work }
    ensures decided { hand.new.view.work.decided ≡ decided }
    ensures linked { hand.new.view.work.linked ≡ take count sets.now.writes }
    ensures stays { StaysReady core.now hand.old hand.new }
{
    for i in 0..count {
        core.store_status(hand, sets.write_at(i), decided);
    }
}

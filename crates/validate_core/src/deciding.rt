//! Deciding a transaction whose writes are installed, publishing it, and aborting it.
ghost use Rattle.std.specs.Prelude.{◌≡◌, true, false, OnOk, OnErr, IfOk, IfErr};
ghost use Rattle.core_rule.specs.View.{writing};
ghost use Rattle.core_rule.specs.Deciding.{commit_of, IsFitting};
ghost use Rattle.core_rule.specs.Hands.{IsReady, StaysReady};
ghost use Rattle.validate_core.specs.Sets.{IsInside, versions_read, records_written};
ghost use Rattle.validate_core.specs.Checked.{Validates};
ghost use Rattle.validate_core.specs.Halting.{Halts};
ghost use Rattle.validate_core.specs.Validating.{Stands, Works, IsInstalled, IsDecidedAt, Decides, IsOver, IsShown};

use crate::checking::validate;
use crate::conflict::Conflict;
use crate::sets::Sets;
use crate::statuses::store_all;
use core_rule::{Core, Hand, Keeps};

/// The writes of a transaction are linked as pending versions at its stamp. It has to be decided or aborted.
pub struct Installed {
    pub(crate) stamp: u64,
}

/// A transaction is decided. Its versions have to be published.
pub struct Decided {
    stamp: u64,
}

impl Installed {
    /// Raises the read stamps of the versions read, checks each read again, and the visible version of each written record.
    /// The transaction is decided at the load of its last check. A conflict aborts what was installed.
    pub fn decide<J: Keeps>(
        self,
        core: &Core<J>,
        hand: &mut Hand<J>,
        sets: &Sets,
    ) -> Result<Decided, Conflict>
        requires ready { IsReady core.now hand.old }
        requires inside { IsInside core.now.size sets.now }
        requires installed { IsInstalled self.stamp sets.now hand.old.view }
        requires fits { IsFitting J.kept core.now.size.records (commit_of (writing self.stamp) sets.now.reads sets.now.writes) }
        ensures stands { Stands hand.old.view hand.new.view }
        ensures ok { OnOk result (Decides J.kept core.now.size.records self.stamp sets.now hand.old.view hand.new.view) }
        ensures validates { OnOk result (Validates self.stamp hand.old.view.number (versions_read sets.now.reads) (records_written sets.now.writes) hand.old.view.seen.loads hand.new.view.seen.loads) }
        ensures stamp { IfOk result (λ decided. decided.stamp ≡ self.stamp) }
        ensures log { OnErr result (hand.new.view.log ≡ hand.old.view.log) }
        ensures aborted { OnErr result (IsOver false sets.now hand.new.view) }
        ensures conflict { IfErr result (IsShown self.stamp sets.now hand.old.view hand.new.view) }
        ensures halts { IfErr result (Halts self.stamp (versions_read sets.now.reads) (records_written sets.now.writes) hand.old.view.seen.loads hand.new.view.seen.loads) }
        ensures as_before { OnErr result (Works hand.old.view hand.new.view) }
        ensures linked { hand.new.view.work.linked ≡ sets.now.writes }
        ensures stays { StaysReady core.now hand.old hand.new }
    {
        let Installed { stamp } = self;
        match validate(core, hand, sets, stamp) {
            Ok(()) => Ok(Decided { stamp }),
            Err(conflict) => {
                store_all(core, hand, sets, false);
                Err(conflict)
            }
        }
    }

    /// Stores aborted for each installed version.
    pub fn abort<J: Keeps>(self, core: &Core<J>, hand: &mut Hand<J>, sets: &Sets)
        requires ready { IsReady core.now hand.old }
        requires inside { IsInside core.now.size sets.now }
        requires installed { IsInstalled self.stamp sets.now hand.old.view }
        ensures stands { Stands hand.old.view hand.new.view }
        ensures log { hand.new.view.log ≡ hand.old.view.log }
        ensures aborted { IsOver false sets.now hand.new.view }
        ensures as_before { Works hand.old.view hand.new.view }
        ensures linked { hand.new.view.work.linked ≡ sets.now.writes }
        ensures seen { hand.new.view.seen ≡ hand.old.view.seen }
        ensures stays { StaysReady core.now hand.old hand.new }
    {
        let Installed { stamp: _ } = self;
        store_all(core, hand, sets, false);
    }
}

impl Decided {
    /// Stores committed, or deleted, for each installed version.
    pub fn publish<J: Keeps>(self, core: &Core<J>, hand: &mut Hand<J>, sets: &Sets)
        requires ready { IsReady core.now hand.old }
        requires inside { IsInside core.now.size sets.now }
        requires decided { IsDecidedAt self.stamp sets.now hand.old.view }
        ensures stands { Stands hand.old.view hand.new.view }
        ensures log { hand.new.view.log ≡ hand.old.view.log }
        ensures published { IsOver true sets.now hand.new.view }
        ensures as_before { Works hand.old.view hand.new.view }
        ensures linked { hand.new.view.work.linked ≡ sets.now.writes }
        ensures seen { hand.new.view.seen ≡ hand.old.view.seen }
        ensures stays { StaysReady core.now hand.old hand.new }
    {
        let Decided { stamp: _ } = self;
        store_all(core, hand, sets, true);
    }
}

//! Reading a record from the table.
ghost use Rattle.std.specs.Prelude.{◌≡◌, ◌<◌, IfOk, IfErr, IfSome, length, false};
ghost use Rattle.core_rule.specs.View.{writing};
ghost use Rattle.core_rule.specs.Searching.{Rests};
ghost use Rattle.core_rule.specs.Hands.{IsReady, StaysReady};
ghost use Rattle.seat_post.specs.Searched.{Finds, Stops};

use core_rule::{Core, Hand, Keeps};
use plain_data::Cells;
use version_search::{Found, find, load_value};

/// A version that was read.
#[derive(Drop)]
pub(crate) struct Read {
    pub(crate) place: u32,
    pub(crate) wts: u64,
    pub(crate) value: Option<Cells>,
}

/// A pending version of this stamp was met.
#[derive(Clone, Copy)]
pub(crate) struct MetPending {
    pub(crate) wts: u64,
}

/// Searches for the version that is visible below the stamp in flight, and loads its value.
pub(crate) fn search<J: Keeps>(
    core: &Core<J>,
    hand: &mut Hand<J>,
    rid: u32,
    stamp: u64,
) -> Result<Read, MetPending>
    requires ready { IsReady core.now hand.old }
    requires rid { rid < core.now.size.records }
    requires rests { Rests hand.old.view.work.search }
    requires in_flight { hand.old.view.flight ≡ writing stamp }
    ensures ok { IfOk result (λ read. Finds rid read.place read.wts read.value hand.old.view hand.new.view) }
    ensures whole { IfOk result (λ read. IfSome read.value (λ words. length words ≡ 32)) }
    ensures err { IfErr result (λ met. Stops stamp rid met.wts hand.old.view hand.new.view) }
    ensures stays { StaysReady core.now hand.old hand.new }
{
    match find(core, hand, rid, stamp, false) {
        Found::Pending { wts } => Err(MetPending { wts }),
        Found::Version {
            place,
            wts,
            absent: true,
        } => Ok(Read {
            place,
            wts,
            value: None,
        }),
        Found::Version {
            place,
            wts,
            absent: false,
        } => {
            let cells = load_value(core, hand, place);
            // Its type tells contracts how long it is.
            let _words = cells.words();
            Ok(Read {
                place,
                wts,
                value: Some(cells),
            })
        }
    }
}

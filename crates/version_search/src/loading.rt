//! Loading the value of the version that a search found.
ghost use Rattle.std.specs.Prelude.{◌≡◌, ◌<◌, ◌++◌, length};
ghost use Rattle.word_layout.specs.Size.{places};
ghost use Rattle.core_rule.specs.Searching.{IsLoading, read_place, read_cells};
ghost use Rattle.core_rule.specs.Hands.{IsReady, StaysReady};
ghost use Rattle.version_search.specs.Growing.{Grows};
ghost use Rattle.version_search.specs.Loading.{with_value, IsLeftIn, cells_loaded};

use core_rule::{Core, Hand, Keeps, ReadVersion};
use plain_data::Cells;
use word_layout::CELLS;

// The cells are loaded in rows of so many: a loop of constant length.
const ROW: u32 = 8;

/// Loads the value of the version that the last search for a read found, which is committed.
pub fn load_value<J: Keeps>(core: &Core<J>, hand: &mut Hand<J>, place: u32) -> Cells
    requires ready { IsReady core.now hand.old }
    requires loading { IsLoading hand.old.view.work.reads }
    requires place { place ≡ read_place hand.old.view.work.reads }
    requires inside { place < places core.now.size }
    requires begins { read_cells hand.old.view.work.reads ≡ 0 }
    ensures view { hand.new.view ≡ with_value hand.old.view result hand.new.view.seen }
    ensures left { IsLeftIn hand.new.view result }
    ensures grows { Grows hand.old.view.seen hand.new.view.seen }
    ensures lost { hand.new.view.seen.lost ≡ hand.old.view.seen.lost }
    // Each word is the number that a load of its cell found.
    ensures loads { hand.new.view.seen.loads ≡ hand.old.view.seen.loads ++ cells_loaded place 0 result }
    ensures stays { StaysReady core.now hand.old hand.new }
{
    let mut read = ReadVersion::new(0, place, 0, None);
    read.begin(0, place, 0);
    load_into(core, hand, place, &mut read);
    let Some(cells) = read.value() else {
        unreachable!();
    };
    cells
}

/// The same, into a version whose cells are to hold the value.
pub fn load_into<J: Keeps>(core: &Core<J>, hand: &mut Hand<J>, place: u32, read: &mut ReadVersion)
    requires ready { IsReady core.now hand.old }
    requires loading { IsLoading hand.old.view.work.reads }
    requires place { place ≡ read_place hand.old.view.work.reads }
    requires inside { place < places core.now.size }
    requires begins { read_cells hand.old.view.work.reads ≡ 0 }
    requires present { length read.old.cells ≡ 32 }
    ensures read { read.new ≡ record read.old { cells = read.new.cells } }
    ensures whole { length read.new.cells ≡ 32 }
    ensures view { hand.new.view ≡ with_value hand.old.view read.new.cells hand.new.view.seen }
    ensures left { IsLeftIn hand.new.view read.new.cells }
    ensures lost { hand.new.view.seen.lost ≡ hand.old.view.seen.lost }
    ensures loads { hand.new.view.seen.loads ≡ hand.old.view.seen.loads ++ cells_loaded place 0 read.new.cells }
    ensures stays { StaysReady core.now hand.old hand.new }
{
    let first = core.layout().cell(place, 0);
    for row in 0..CELLS / ROW {
        for column in 0..ROW {
            let index = row * ROW + column;
            let word = core.load_cell(hand, first, index);
            read.set_cell(index, word);
        }
    }
}

/// The same, into words of the caller's.
pub fn load_words<J: Keeps>(core: &Core<J>, hand: &mut Hand<J>, place: u32, words: &mut [u64; 32])
    requires ready { IsReady core.now hand.old }
    requires loading { IsLoading hand.old.view.work.reads }
    requires place { place ≡ read_place hand.old.view.work.reads }
    requires inside { place < places core.now.size }
    requires begins { read_cells hand.old.view.work.reads ≡ 0 }
    requires whole { length words.old ≡ 32 }
    ensures whole { length words.new ≡ 32 }
    ensures view { hand.new.view ≡ with_value hand.old.view words.new hand.new.view.seen }
    ensures left { IsLeftIn hand.new.view words.new }
    ensures lost { hand.new.view.seen.lost ≡ hand.old.view.seen.lost }
    ensures loads { hand.new.view.seen.loads ≡ hand.old.view.seen.loads ++ cells_loaded place 0 words.new }
    ensures stays { StaysReady core.now hand.old hand.new }
{
    let first = core.layout().cell(place, 0);
    for row in 0..CELLS / ROW {
        for column in 0..ROW {
            let index = row * ROW + column;
            let word = core.load_cell(hand, first, index);
            words[index as usize] = word;
        }
    }
}

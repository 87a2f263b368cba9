//! The words of a table, and their numbers.
ghost use Rattle.std.specs.Prelude.{◌<◌};
ghost use Rattle.word_layout.specs.Size.{places};

use crate::due::{hold, is_shown, same};
use std::alloc::{AllocError, Global};
use std::test::*;
use word_layout::{CELLS, Layout, Limit};

// Whether a table of so many seats, records and pool places has so many words, and tells its numbers again.
fn has_words(seats: u32, records: u32, spare: u32, words: u32) -> bool {
    let Ok(layout) = Layout::new(seats, records, spare) else {
        return false;
    };
    layout.words() == words
        && layout.seats() == seats
        && layout.records() == records
        && layout.spare() == spare
        && layout.places() == records + spare
}

#[test]
fn sizes_give_their_words(rt: HostRuntime) {
    let table = [
        (2, 6, 4, 384),
        (1, 1, 1, 79),
        (64, 135_168, 143_361, 10_432_678),
        (64, 200_000, 262_144, 17_237_314),
    ];
    for (i, (seats, records, spare, words)) in table.iter().enumerate() {
        hold(&rt, has_words(*seats, *records, *spare, *words), i);
    }
}

#[test]
fn numbers_out_of_range_are_refused(rt: HostRuntime) {
    let table = [
        (65, 1, 1),
        (0, 1, 1),
        (1, 0, 1),
        (1, 200_001, 1),
        (1, 1, 0),
        (1, 1, 262_145),
    ];
    for (i, (seats, records, spare)) in table.iter().enumerate() {
        let made = Layout::new(*seats, *records, *spare);
        hold(&rt, matches!(made, Err(Limit)), i);
    }
}

// Appends the words of a seat.
fn push_seat(layout: &Layout, s: u32, words: &mut Vec<u32>) -> Result<(), AllocError>
    requires { s < layout.now.seats }
{
    words.extend_from_slice(&[layout.published_write(s), layout.published_read(s)])
}

// Appends the words of a record.
fn push_record(layout: &Layout, r: u32, words: &mut Vec<u32>) -> Result<(), AllocError>
    requires { r < layout.now.records }
{
    words.extend_from_slice(&[layout.head(r), layout.lock(r), layout.floor(r)])
}

// Appends the words of a place.
fn push_place(layout: &Layout, p: u32, words: &mut Vec<u32>) -> Result<(), AllocError>
    requires { p < places layout.now }
{
    let heads = [
        layout.status(p),
        layout.wts(p),
        layout.rts(p),
        layout.next(p),
    ];
    words.extend_from_slice(&heads)?;
    for i in 0..CELLS {
        words.push(layout.cell(p, i))?;
    }
    Ok(())
}

// The words of a table, sorted.
fn words_of(alloc: Global, layout: &Layout) -> Result<Vec<u32>, AllocError> {
    let mut words = [layout.min_write(), layout.min_read()].to_vec(alloc)?;
    for s in 0..layout.seats() {
        push_seat(layout, s, &mut words)?;
    }
    for r in 0..layout.records() {
        push_record(layout, r, &mut words)?;
    }
    for p in 0..layout.places() {
        push_place(layout, p, &mut words)?;
    }
    words.sort()?;
    Ok(words)
}

// Whether each of these words stands at its own number.
fn count_up(words: &[u32]) -> bool {
    let mut numbered = words.iter().enumerate();
    numbered.all(|(number, word)| *word as usize == number)
}

#[test]
fn each_number_names_one_word(rt: HostRuntime) -> Result<(), Fail> {
    let layout = Layout::new(2, 6, 4)?;
    let words = words_of(rt.alloc(), &layout)?;
    same(&rt, words.len(), 384, 0);
    hold(&rt, count_up(words.as_slice()), 1);
    Ok(())
}

#[test]
fn splitting_a_seat_steps_on_word_0(rt: HostRuntime) -> Result<(), Fail> {
    same(&rt, Layout::new(2, 6, 4)?.published_write(0), 0, 0);
    hold(&rt, is_shown(rt.alloc(), &Limit, "limit")?, 1);
    Ok(())
}

//! Stamps and their numbers.
use crate::due::{hold, same};
use stamp_base::{
    END, GREATEST_ADOPTED_CLOCK, GREATEST_CLOCK, SEATS, Stamp, adopted_clock, is_clock, is_end,
    is_seat,
};
use std::test::*;

// Whether a clock and a seat have a stamp of this number, which tells them again.
fn is_stamp_of(clock: u64, seat: u32, number: u64) -> bool {
    if !is_clock(clock) || !is_seat(seat) {
        return false;
    }
    let stamp = Stamp::make(clock, seat);
    let again = Stamp::from_number(stamp.number());
    stamp.number() == number && stamp.clock() == clock && stamp.seat() == seat && again == stamp
}

#[test]
fn stamps_give_their_numbers(rt: HostRuntime) {
    let table = [
        (0, 0, 0),
        (10, 0, 2_560),
        (20, 1, 5_121),
        (36_028_797_018_963_968, 0, 9_223_372_036_854_775_808),
        (72_057_594_037_927_934, 63, 18_446_744_073_709_551_167),
    ];
    for (i, (clock, seat, number)) in table.iter().enumerate() {
        hold(&rt, is_stamp_of(*clock, *seat, *number), i);
    }
}

#[test]
fn stamps_are_ordered_by_clock_then_seat(rt: HostRuntime) {
    hold(&rt, Stamp::make(10, 63) < Stamp::make(11, 0), 0);
    hold(&rt, Stamp::make(10, 1) > Stamp::make(10, 0), 1);
    let greater = Stamp::make(7, 3).max(Stamp::make(7, 2));
    same(&rt, greater, Stamp::make(7, 3), 2);
}

#[test]
fn limits_of_stamps_have_their_values(rt: HostRuntime) {
    same(&rt, GREATEST_CLOCK, 72_057_594_037_927_934, 0);
    same(&rt, GREATEST_ADOPTED_CLOCK, 36_028_797_018_963_968, 1);
    same(&rt, END, 18_446_744_073_709_551_615, 2);
    same(&rt, SEATS, 64, 3);
    let inside = [
        is_seat(63),
        is_clock(72_057_594_037_927_934),
        !is_end(18_446_744_073_709_551_614),
    ];
    let outside = [is_seat(64), is_clock(72_057_594_037_927_935), !is_end(END)];
    same(&rt, inside, [true; 3], 4);
    same(&rt, outside, [false; 3], 5);
    let adopted = adopted_clock(36_028_797_018_963_969);
    same(&rt, adopted, 36_028_797_018_963_968, 6);
    same(&rt, adopted_clock(7), 7, 7);
}

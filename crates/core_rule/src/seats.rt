//! The seats of a table: the first one, splitting and joining.
ghost use Rattle.std.specs.Prelude.{◌≡◌, ◌<◌, [], IfOk};
ghost use Rattle.core_rule.specs.Hands.{IsHandOf, IsReady, StaysReady, IsRetired, IsSplit, IsJoined};
ghost use Rattle.core_rule.specs.Offers.{MayOffer, made_of};
ghost use Rattle.core_rule.specs.Searching.{Ends};
ghost use Rattle.core_rule.specs.Kinds.{offer_write_word, offer_read_word, Allowed};
ghost use Rattle.core_rule.specs.Learnt.{Told};
ghost use Rattle.core_rule.specs.View.{first_view};

use crate::begin::first_words;
use crate::hand::Hand;
use crate::rule::{Shares, TakesIn};
use crate::shared::Core;
use crate::view::View;
use atomic_table::{Seat, Table};
use histories::Keeps;
use plain_data::NoMemory;
use std::alloc::Global;
use std::marker::{Brand, PhantomData};
use word_layout::Layout;

impl<J: Keeps> Core<J> {
    /// A new table of this layout, and the hand of seat 0. Room for all words is taken at once.
    pub fn new(alloc: Global, layout: &Layout) -> Result<(Core<J>, Hand<J>), NoMemory>
        ensures size { IfOk result (λ made. made.0.size ≡ layout.now) }
        ensures ready { IfOk result (λ made. IsReady made.0 made.1) }
        ensures first { IfOk result (λ made. made.1.view ≡ first_view layout.now) }
    {
        let words = first_words(alloc, layout)?;
        let (table, seat) = Table::of_words(alloc, words.as_slice(), layout)?;
        let core = Core {
            table,
            layout: *layout,
        };
        let hand = Hand {
            seat,
            number: 0,
            clock: 0,
            published: 1,
            bound: 0,
            made: 1,
            last_pool: None,
            keeps: PhantomData,
        };
        Ok((core, hand))
    }

    /// The layout of the table.
    pub fn layout(&self) -> Layout
        ensures { result ≡ self.now.size }
    {
        self.layout
    }

    /// Makes the next seat, whose hand has the clock of seat 0, the greatest `min_wts` that seat 0 has met, an empty log
    /// and published words equal to those of seat 0. Seat 0 stores these two words first. Once it has made another call
    /// after a split, it splits no more.
    pub fn split(&self, hand: &mut Hand<J>) -> Hand<J>
        requires ready { IsReady self.now hand.old }
        requires makes { MayOffer hand.old.view.splitting }
        requires room { made_of hand.old.view.splitting < self.now.size.seats }
        requires ends { Ends hand.old.view.work }
        ensures split { IsSplit hand.old hand.new result }
        ensures stays { StaysReady self.now hand.old hand.new }
        ensures made { IsReady self.now result }
    {
        let number = hand.made;
        self.offer_write(&mut hand.seat, number, hand.published);
        self.offer_read(&mut hand.seat, number, hand.bound);
        let seat = self.table.shared.split_seat::<Shares>(&mut hand.seat);
        hand.made = number + 1;
        Hand {
            seat,
            number,
            clock: hand.clock,
            published: hand.published,
            bound: hand.bound,
            made: 0,
            last_pool: None,
            keeps: PhantomData,
        }
    }

    /// Takes in the hand of another seat, which is retired.
    pub fn join(&self, hand: &mut Hand<J>, other: Hand<J>)
        requires hand_of { IsHandOf self.now hand.old }
        requires other_of { IsHandOf self.now other }
        requires retired { IsRetired other.view }
        requires ends { Ends hand.old.view.work }
        requires other_ends { Ends other.view.work }
        ensures { IsJoined hand.old other hand.new }
    {
        hand.clock = hand.clock.max(other.clock);
        let Hand {
            seat,
            number: _,
            clock: _,
            published: _,
            bound: _,
            made: _,
            last_pool: _,
            keeps: _,
        } = other;
        self.table.shared.join_seat::<TakesIn>(&mut hand.seat, seat);
    }

    // Stores a seat's published write word for the seat that it makes next.
    fn offer_write(&self, seat: &mut Seat<(), View>, made: u32, published: u64)
        requires table { seat.old.table_id ≡ self.now.table }
        requires bare { seat.old.me.1 ≡ [] }
        requires allowed { Allowed J.kept offer_write_word seat.old.me.0 }
        requires made { made ≡ made_of seat.old.me.0.splitting }
        requires room { made < self.now.size.seats }
        requires published { published ≡ seat.old.me.0.published.write }
        ensures table { seat.new.table_id ≡ seat.old.table_id }
        ensures id { seat.new.id ≡ seat.old.id }
        ensures bare { seat.new.me.1 ≡ [] }
        ensures told { Told J.kept offer_write_word seat.old.me.0 published seat.new.me.0 }
    {
        let word = self.layout.published_write(made);
        self.store::<Brand, _>(seat, word, published, &());
    }

    // The same for the published read word.
    fn offer_read(&self, seat: &mut Seat<(), View>, made: u32, published: u64)
        requires table { seat.old.table_id ≡ self.now.table }
        requires bare { seat.old.me.1 ≡ [] }
        requires allowed { Allowed J.kept offer_read_word seat.old.me.0 }
        requires made { made ≡ made_of seat.old.me.0.splitting }
        requires room { made < self.now.size.seats }
        requires published { published ≡ seat.old.me.0.published.read }
        ensures table { seat.new.table_id ≡ seat.old.table_id }
        ensures id { seat.new.id ≡ seat.old.id }
        ensures bare { seat.new.me.1 ≡ [] }
        ensures told { Told J.kept offer_read_word seat.old.me.0 published seat.new.me.0 }
    {
        let word = self.layout.published_read(made);
        self.store::<Brand, _>(seat, word, published, &());
    }
}

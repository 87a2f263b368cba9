//! The numbers from which the load is made, and the transfers that are made of them.

ghost use Rattle.std.specs.Prelude.{◌≡◌};
ghost use Rattle.load_gen.specs.Generator.{next_state, drawn, transfer_at, behind_transfer};

/// A linear congruential generator of 64 bits, with the multiplier and the increment of Knuth's MMIX (The Art of Computer
/// Programming, volume 2, section 3.3.4). Each draw gives the upper 31 bits of the state, which are the better ones.
#[derive(Drop)]
pub struct Generator {
    pub state: u64,
}

/// What a block moves: from one account to another one, and how much. Accounts are numbered from 1 to 64; an amount is from 1 to 1,000.
#[derive(Clone, Copy)]
pub struct Transfer {
    pub from: u64,
    pub to: u64,
    pub amount: u64,
}

impl Generator {
    /// The next number, below 2^31.
    fn draw(&mut self) -> u64
        ensures state { self.new.state ≡ next_state self.old.state }
        ensures number { result ≡ drawn (next_state self.old.state) }
    {
        let product = self.state.wrapping_mul(6_364_136_223_846_793_005);
        self.state = product.wrapping_add(1_442_695_040_888_963_407);
        self.state >> 33
    }

    /// The next transfer, by three draws.
    pub fn transfer(&mut self) -> Transfer
        ensures state { self.new.state ≡ behind_transfer self.old.state }
        ensures transfer { result ≡ transfer_at self.old.state }
    {
        let first = self.draw();
        let second = self.draw();
        let third = self.draw();
        let from = first % 64 + 1;
        let to = (from + second % 63) % 64 + 1;
        let amount = third % 1000 + 1;
        Transfer { from, to, amount }
    }
}

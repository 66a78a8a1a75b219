// The standing orders of a book, borrowed: demand and supply at a price.
ghost use Rattle.std.specs.Prelude.{◌≡◌, ◌≤◌};
ghost use Rattle.pricing.specs.Passes.{Few};
ghost use Rattle.pricing.specs.Sides.{sides, demand, supply, volume};

use crate::demands::open_at;
use std::marker::Model;
use words::orders::Order;
use words::sides::Side;

// Each side in the order of its grants, of few enough orders that sums of quantities fit.
#[derive(Debug, Drop)]
pub struct Standing<'a> {
    pub(crate) buys: &'a [Order],
    pub(crate) sells: &'a [Order],
}

impl<'a> Model for Standing<'a> {
    ghost use Rattle.pricing.specs.Sides.{Sides, sides};
    ghost use Rattle.pricing.specs.Passes.{Few};

    ghost Value = { Sides };

    ghost view = { λ s. sides s.buys.now s.sells.now };

    ghost invariant = { λ s. (Few s.buys.now) × (Few s.sells.now) };
}

impl<'a> Standing<'a> {
    pub fn new(buys: &'a [Order], sells: &'a [Order]) -> Standing<'a>
        requires buys { Few buys.now }
        requires sells { Few sells.now }
        ensures { result ≡ sides buys.now sells.now }
    {
        Standing { buys, sells }
    }

    pub fn buys(&self) -> &[Order]
        ensures value { result.now ≡ self.now.buys }
        ensures few { Few result.now }
    {
        self.buys
    }

    pub fn sells(&self) -> &[Order]
        ensures value { result.now ≡ self.now.sells }
        ensures few { Few result.now }
    {
        self.sells
    }

    pub(crate) fn demand(&self, price: u32) -> u32
        ensures value { result ≡ demand self.now price }
        ensures bound { result ≤ 129000000 }
    {
        open_at(Side::Buy, self.buys, price)
    }

    pub(crate) fn supply(&self, price: u32) -> u32
        ensures value { result ≡ supply self.now price }
        ensures bound { result ≤ 129000000 }
    {
        open_at(Side::Sell, self.sells, price)
    }

    // What the price executes.
    pub fn volume(&self, price: u32) -> u32
        ensures { result ≡ volume self.now price }
    {
        self.demand(price).min(self.supply(price))
    }
}

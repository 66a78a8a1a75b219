// A picture of demand and supply at each limit price and at the auction price.
use crate::tables::PriceText;
use auction::held::Auction;
use std::alloc::{AllocError, Global};
use std::fmt;
use words::orders::Order;
use words::sides::Side;

// The longest bar.
const BAR: &str = "########################";

// How many marks it has.
const WIDTH: usize = BAR.len();

// Demand to the left and supply to the right of each price, with the asked order in them if there is one; the auction price is marked.
#[derive(Drop)]
pub(crate) struct Picture<'a> {
    auction: &'a Auction,
    asked: Option<Order>,
    found: Option<u32>,
    // the limit prices of the orders and of the asked one, with the auction price, the highest first and each once
    prices: Vec<u32>,
}

impl<'a> Picture<'a> {
    pub(crate) fn new(
        heap: Global,
        auction: &'a Auction,
        orders: &[Order],
        asked: Option<Order>,
        found: Option<u32>,
    ) -> Result<Picture<'a>, AllocError> {
        let mut prices: Vec<u32> = orders
            .iter()
            .chain(&asked)
            .filter_map(|order| order.terms.limit())
            .chain(found)
            .collect(heap)?;
        prices.sort_unstable();
        prices.dedup();
        prices.reverse();
        Ok(Picture {
            auction,
            asked,
            found,
            prices,
        })
    }
}

impl Picture<'_> {
    // What the asked order adds on a side at a price.
    fn added(&self, side: Side, price: u32) -> u32 {
        self.asked
            .filter(|order| order.side == side && order.terms.may_trade(side, price))
            .map_or(0, |order| order.quantity)
    }

    // Demand or supply at a price, the asked order with it.
    fn open_at(&self, side: Side, price: u32) -> u32 {
        self.auction
            .open_at(side, price)
            .saturating_add(self.added(side, price))
    }

    // The largest demand or supply at any of the prices.
    fn largest(&self) -> u32 {
        self.prices
            .iter()
            .map(|&price| self
                .open_at(Side::Buy, price)
                .max(self.open_at(Side::Sell, price)))
            .max()
            .unwrap_or(0)
    }
}

impl fmt::Display for Picture<'_> {
    fn fmt<W: fmt::Write>(&self, f: &mut fmt::Formatter<W>) -> fmt::Result {
        if self.prices.is_empty() {
            return writeln!(f, "No limit price stands.");
        }
        let unit = self.largest().div_ceil(WIDTH as u32).max(1);
        writeln!(f, "Demand and supply by price (shares a mark: {unit})")?;
        writeln!(
            f,
            "                             demand     price     supply"
        )?;
        for &price in &self.prices {
            let demand = self.open_at(Side::Buy, price);
            let supply = self.open_at(Side::Sell, price);
            let left = demand.div_ceil(unit) as usize;
            let right = supply.div_ceil(unit) as usize;
            let leva = PriceText(Some(price));
            write!(f, "{BAR:>WIDTH$.left$} {demand:>10}{leva:>10} {supply:>10}")?;
            if right > 0 {
                write!(f, " {BAR:.right$}")?;
            }
            if self.found == Some(price) {
                write!(f, "  <- auction price")?;
            }
            writeln!(f)?;
        }
        Ok(())
    }
}

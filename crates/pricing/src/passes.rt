// The auction price, found in two passes over the limits of a book.
ghost use Rattle.std.specs.Prelude.{◌≡◌, ℕ, fold};
ghost use Rattle.pricing.specs.Sides.{limits_of, limits};
ghost use Rattle.pricing.specs.Price.{auction_price, none, nearest, market_only};
ghost use Rattle.pricing.specs.Passes.{merit_of, better, best_from, widen, ends_from, choice, or_lower, nothing, no_ends, Gives};

use crate::standing::Standing;
use std::cmp::Reverse;
use words::orders::Order;

// What makes one limit price better than another: what it executes, and how much it leaves over on either side.
#[derive(Clone, Copy, Debug, Default, PartialEq, Eq)]
pub struct Merit {
    pub volume: u32,
    pub gap: u32,
}

// The candidates that the price is chosen by.
#[derive(Clone, Copy, Debug, Default, PartialEq, Eq)]
pub struct Ends {
    // the highest with a surplus above 0
    pub above: Option<u32>,
    // the lowest with a surplus below 0
    pub below: Option<u32>,
    // the lowest and the highest with a surplus of 0
    pub low: Option<u32>,
    pub high: Option<u32>,
}

// The merit of a price with that demand and supply.
fn merit_of(demand: u32, supply: u32) -> Merit
    ensures { result ≡ merit_of demand supply }
{
    Merit {
        volume: demand.min(supply),
        gap: demand.abs_diff(supply),
    }
}

// The better of the two: the old one where they are level.
fn better_of(best: Merit, other: Merit) -> Merit
    ensures { result ≡ better best other }
{
    if (best.volume, Reverse(best.gap)) < (other.volume, Reverse(other.gap)) {
        other
    } else {
        best
    }
}

fn lower_of(a: Option<u32>, price: u32) -> Option<u32>
    ensures { result ≡ or_lower a price }
{
    Some(a.map_or(price, |x| x.min(price)))
}

// The ends with one limit more, which counts where it is as good as the best.
fn widened(ends: Ends, best: Merit, price: u32, demand: u32, supply: u32) -> Ends
    ensures { result ≡ widen best ends price demand supply }
{
    let mut wide = ends;
    if merit_of(demand, supply) == best {
        if supply < demand {
            wide.above = ends.above.max(Some(price));
        } else if demand < supply {
            wide.below = lower_of(ends.below, price);
        } else {
            wide.low = lower_of(ends.low, price);
            wide.high = ends.high.max(Some(price));
        }
    }
    wide
}

// The price between two that is nearest to the reference price.
fn nearest_to(low: u32, high: u32, reference: u32) -> u32
    ensures { result ≡ nearest low high reference }
{
    low.max(high.min(reference))
}

// The price that the ends of the candidates give.
fn choose(ends: Ends, reference: u32) -> Option<u32>
    ensures { result ≡ choice ends reference }
{
    match (ends.above, ends.below) {
        (Some(above), Some(below)) => Some(nearest_to(above, below, reference)),
        (None, None) => Some(nearest_to(ends.low?, ends.high?, reference)),
        (above, below) => above.or(below),
    }
}

// Whether no order of the slice has a limit.
fn no_limit(orders: &[Order]) -> bool
    ensures { result ≡ none (limits_of orders.now) }
{
    orders.iter().all(|order| order.terms.limit().is_none())
}

// A fold over the limits of some orders.
fn over_limits<A, F: Fn(A, u32) -> A>(orders: &[Order], start: A, step: F) -> A
    requires { F.IsAlwaysCallable step }
    ensures { (f : A → ℕ → A) → Gives (F.post step) f → result ≡ fold f start (limits_of orders.now) }
{
    orders
        .iter()
        .filter_map(|order| order.terms.limit())
        .fold(start, step)
}

impl Standing<'_> {
    // A fold over the limits of the book.
    fn fold_limits<A, F: Fn(A, u32) -> A>(&self, start: A, step: F) -> A
        requires { F.IsAlwaysCallable step }
        ensures { (f : A → ℕ → A) → Gives (F.post step) f → result ≡ fold f start (limits self.now) }
    {
        let of_buys = over_limits(self.buys, start, &step);
        over_limits(self.sells, of_buys, step)
    }

    // The best over all limits of the book.
    fn best(&self) -> Merit
        ensures { result ≡ best_from self.now nothing (limits self.now) }
    {
        self.fold_limits(Merit::default(), |best, limit| {
            better_of(best, merit_of(self.demand(limit), self.supply(limit)))
        })
    }

    // The ends over all limits of the book.
    fn ends(&self, best: Merit) -> Ends
        ensures { result ≡ ends_from self.now best no_ends (limits self.now) }
    {
        self.fold_limits(Ends::default(), |ends, limit| {
            widened(ends, best, limit, self.demand(limit), self.supply(limit))
        })
    }

    // Whether no order has a limit, and orders stand on both sides.
    fn is_market_only(&self) -> bool
        ensures { result ≡ market_only self.now }
    {
        no_limit(self.buys)
            && no_limit(self.sells)
            && !self.buys.is_empty()
            && !self.sells.is_empty()
    }

    // The auction price.
    pub(crate) fn auction_price(&self, reference: u32) -> Option<u32>
        ensures { result ≡ auction_price self.now reference }
    {
        let best = self.best();
        if best.volume > 0 {
            return choose(self.ends(best), reference);
        }
        self.is_market_only().then_some(reference)
    }
}

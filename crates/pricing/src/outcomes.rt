// What is replied of an auction.
ghost use Rattle.std.specs.Prelude.{◌≡◌, pos, ◌-ℤ◌};
ghost use Rattle.pricing.specs.Laws.{LawOfPrice};
ghost use Rattle.pricing.specs.Outcomes.{outcome_at, outcome_of};

use crate::standing::Standing;

// The auction price if there is one, the shares that it executes, and demand minus supply there: 0 without a price.
#[derive(Clone, Copy, Debug, Default, PartialEq, Eq)]
pub struct Outcome {
    pub price: Option<u32>,
    pub volume: u32,
    pub surplus: i64,
}

fn surplus_of(demand: u32, supply: u32) -> i64
    ensures { result ≡ pos demand -ℤ pos supply }
{
    i64::from(demand) - i64::from(supply)
}

impl Standing<'_> {
    // What is replied of a price, if there is one.
    fn outcome_at(&self, price: Option<u32>) -> Outcome
        ensures { result ≡ outcome_at self.now price }
    {
        let Some(at) = price else {
            return Outcome::default();
        };
        let demand = self.demand(at);
        let supply = self.supply(at);
        Outcome {
            price,
            volume: demand.min(supply),
            surplus: surplus_of(demand, supply),
        }
    }

    // The auction price of a book at a reference price, and what it executes.
    pub fn outcome(&self, reference: u32) -> Outcome
        ensures value { result ≡ outcome_of self.now reference }
        ensures law_of_price { LawOfPrice self.now reference result.price }
    {
        self.outcome_at(self.auction_price(reference))
    }
}

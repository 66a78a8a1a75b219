// The book of a study, loaded into an auction.
ghost use Rattle.std.specs.Prelude.{◌≡◌, [], Ok};
ghost use Rattle.auction.specs.States.{view};
ghost use Rattle.inquiry.specs.Loading.{holding, FitOrders, Loads};
ghost use Rattle.study.specs.Sound.{Sound};
ghost use Rattle.study.specs.Views.{content};

use auction::held::Auction;
use auction::held::calls::MakeError;
use std::alloc::Global;
use study::reading::Study;
use words::orders::{Order, Ticket};
use words::refusals::Refusal;

// Enters the orders, up to one that is refused. None is, where they are fit and the auction holds none yet.
fn put_all(auction: &mut Auction, orders: &[Order]) -> Result<(), Refusal>
    ensures { FitOrders orders.now → view auction.old ≡ holding (view auction.old).reference [] → (result ≡ Ok tt) × (view auction.new ≡ holding (view auction.old).reference orders.now) }
{
    for order in orders {
        auction.enter(Ticket::from(*order))?;
    }
    Ok(())
}

// An auction that holds what the study says, if that is sound. Another study may be refused.
pub fn load(heap: Global, study: &Study) -> Result<Auction, MakeError>
    ensures { Sound (content study.now) → Loads (content study.now) result }
{
    let mut auction = Auction::new(heap, study.reference)?;
    put_all(&mut auction, study.orders.as_slice()).map_err(MakeError::Refused)?;
    Ok(auction)
}

// The auction and what holds of it between calls.
ghost use Rattle.std.specs.Prelude.{◌≡◌, ◌≤◌, false, is_some, vec_capacity};
ghost use Rattle.auction.specs.Sound.{Sound};

use book::table::Book;
use execution::scratch::Scratch;

#[derive(Debug, Drop)]
pub struct Auction {
    book: Book,
    reference: u32,
    // the number last given
    last: u16,
    gathered: Scratch,
    ranked: Scratch,
    ghost buys_sound: { Sound last book.buys.items },
    ghost sells_sound: { Sound last book.sells.items },
    ghost buys_room: { 128 ≤ vec_capacity book.buys },
    ghost sells_room: { 128 ≤ vec_capacity book.sells },
    ghost clear: { is_some book.asked ≡ false },
    ghost numbers: { last ≤ 60000 },
}

pub mod calls;

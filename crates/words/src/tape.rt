// A line of the tape: what one buy and one sell trade with each other.
#[derive(Clone, Copy, Debug, Default, PartialEq, Eq)]
pub struct Trade {
    pub buy: u16,
    pub sell: u16,
    pub price: u32,
    pub quantity: u32,
}

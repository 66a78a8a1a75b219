// A study, as the code holds it.
use words::orders::Order;

// A study: its reference price in stotinki, its orders in the order of the text, and the orders that it asks about.
#[derive(Debug, Drop)]
pub struct Study {
    pub reference: u32,
    pub orders: Vec<Order>,
    pub asks: Vec<Order>,
}

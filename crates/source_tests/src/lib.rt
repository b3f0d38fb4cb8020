//! Tests of sources, over each model that is used, in the order of its lines: nets that are driven twice, and nets without a
//! driver.
#![tactic(auto)]

mod items;
mod marks;
mod twice;
mod undriven;

pub use items::places_of;
pub use marks::read_marks;
pub use twice::first_twice;
pub use undriven::first_undriven;

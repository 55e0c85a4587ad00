//! Arithmetic, names, places and operators: what every other crate speaks of.
#![tactic(auto)]

mod arithmetic;
mod at;
mod examples;
mod memory;
mod multiples;
mod name;
mod op;
mod port_row;

pub use arithmetic::{add, div, mul, neg, rem, sub};
pub use at::At;
pub use examples::arithmetic_example;
pub use memory::NoMemory;
pub use multiples::{ceil_div, lcm_within};
pub use name::{Name, may_follow, may_start};
pub use op::Op;
pub use port_row::PortRow;

// One control loop of a fan: when a report of its reading turns it on, and the level that it then asks for.
#![tactic(auto)]

mod examples;
mod ramp;
mod range;
mod state;
#[cfg(test)]
mod tests;
mod thermostat;

pub use examples::worked_examples;
pub use ramp::Ramp;
pub use range::Range;
pub use state::Loop;
pub use thermostat::Thermostat;

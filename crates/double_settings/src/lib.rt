// The settings of a double unit: its fans, channels and sources, its registers, and what their bytes say.
#![tactic(auto)]

pub mod parts;
pub mod register;
pub mod settings;
pub mod strap;

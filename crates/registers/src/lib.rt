// The registers of the page: what stands at each address, whose it is, what a byte written there does, and what a read gives.

#![tactic(auto)]

pub mod address;
pub mod owners;
pub mod reading;
pub mod writing;

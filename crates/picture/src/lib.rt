// The registers of a picture: sprites with signed coordinates, and the palette.

#![tactic(auto)]

pub mod palette;
pub mod sprite;

// What the programs share: how bytes, values and refusals are printed, and how the dictionary and the input are read.
#![tactic(auto)]

mod input;
mod shown;

pub use input::{read_dictionary, read_start};
pub use shown::{Content, Hex, PlaceAndNumber, Plain};

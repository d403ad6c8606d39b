// What a type library is: types known by number and argument, their patterns and what these mean.
#![tactic(auto)]

mod joined;
mod library;
mod pattern;
mod patterns;
mod value;

pub use joined::Joined;
pub use library::TypeLibrary;
pub use pattern::Pattern;
pub use value::Value;

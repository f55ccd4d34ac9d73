// The plain measures: two functions under one trait with its laws, and no twins.
mod errors;
mod plain;

pub use plain::{Distance, Squared};

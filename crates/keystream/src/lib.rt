// Keystream generators: what each one means, why it refuses, and how a keystream is applied to a span of bits.
#![tactic(auto)]

pub mod ahead;
pub mod bits;
mod buffer;
pub mod cap;
pub mod fault;
pub mod generator;
pub mod pad;
pub mod setup;
pub mod span;
mod stream;
#[cfg(test)]
mod tests;

//! Cases on the libraries: calls put to a check over the bags, and the answers that they must get.
#![tactic(auto)]

#[cfg(test)]
mod conversations;
#[cfg(test)]
mod refused;

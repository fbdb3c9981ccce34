//! Calls of the crates below that no run of the program shows, each on small values worked out by
//! hand: limits, failing calls, kernels and columns, plans, their costs and their pools.
#![tactic(auto)]

#[cfg(test)]
mod adj;
#[cfg(test)]
mod base;
#[cfg(test)]
mod bits;
#[cfg(test)]
mod column;
#[cfg(test)]
mod dict;
#[cfg(test)]
mod edges;
#[cfg(test)]
mod exists;
#[cfg(test)]
mod graph;
#[cfg(test)]
mod io;
#[cfg(test)]
mod lanes;
#[cfg(test)]
mod least;
#[cfg(test)]
mod loader;
#[cfg(test)]
mod made;
#[cfg(test)]
mod pipe;
#[cfg(test)]
mod plain;
#[cfg(test)]
mod plans;
#[cfg(test)]
mod pool;
#[cfg(test)]
mod queries;
#[cfg(test)]
mod reference;
#[cfg(test)]
mod render;
#[cfg(test)]
mod session;
#[cfg(test)]
mod store;

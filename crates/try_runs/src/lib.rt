//! Tests of a core over a store that refuses, with pieces that leave it, with searches and with a worker's
//! parts by hand, and of runs with threads. They stand in a crate of their own, since a crate with tests is proved twice.
#![tactic(auto)]

#[cfg(test)]
mod calls;
#[cfg(test)]
mod helped;
#[cfg(test)]
mod lends;
#[cfg(test)]
mod pieces;
#[cfg(test)]
mod refusals;
#[cfg(test)]
mod searches;
#[cfg(test)]
mod threads;

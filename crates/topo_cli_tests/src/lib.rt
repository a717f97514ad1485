//! Tests of the commands on streams that are slow, break or have no end, of the program's choice of
//! a command, of runs whose gate fixes the order of two calls or counts them, and of a run at
//! prices of the program's own. What rows of a script, a report or a picture can show is tested by
//! `topo_examples`.
#![tactic(auto)]

#[cfg(test)]
mod commands;
#[cfg(test)]
mod failing;
#[cfg(test)]
mod gates;
#[cfg(test)]
mod own_prices;
#[cfg(test)]
mod program;
#[cfg(test)]
mod questions;
#[cfg(test)]
mod reads;
#[cfg(test)]
mod serving;
#[cfg(test)]
mod streams;
#[cfg(test)]
mod words;

//! Tests of what no row of a script, a report or a picture can show: calls of the libraries,
//! invented plans, counted questions. The rows are those of `topo_examples`; the program's streams
//! are those of `topo_cli_tests`.
#![tactic(auto)]

#[cfg(test)]
mod books;
#[cfg(test)]
mod both_ends;
#[cfg(test)]
mod core_types;
#[cfg(test)]
mod duals;
#[cfg(test)]
mod embeddings;
#[cfg(test)]
mod faults;
#[cfg(test)]
mod full;
#[cfg(test)]
mod generated;
#[cfg(test)]
mod guided;
#[cfg(test)]
mod lines;
#[cfg(test)]
mod permutations;
#[cfg(test)]
mod picture_rows;
#[cfg(test)]
mod plans;
#[cfg(test)]
mod readers;
#[cfg(test)]
mod replicas;
#[cfg(test)]
mod searches;
#[cfg(test)]
mod stopping;
#[cfg(test)]
mod stories;

//! Tests of the locked service: views, plans, passes and workers.
#![tactic(auto)]

#[cfg(test)]
mod crowds;
#[cfg(test)]
mod faults;
#[cfg(test)]
mod gates;
#[cfg(test)]
mod harness;
#[cfg(test)]
mod inside;
#[cfg(test)]
mod long_lists;
#[cfg(test)]
mod plans;
#[cfg(test)]
mod steps;
#[cfg(test)]
mod survivors;
#[cfg(test)]
mod views;

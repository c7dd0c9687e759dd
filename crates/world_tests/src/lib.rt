//! Tests of the outside: files, children, a sink and a source, in memory and real.
#![tactic(auto)]

#[cfg(test)]
mod devices;
#[cfg(test)]
mod memory;
#[cfg(test)]
mod programs;
#[cfg(test)]
mod reads;
#[cfg(test)]
mod scripts;

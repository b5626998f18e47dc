//! Tests of the libraries by their calls, with values from outside.
#![tactic(auto)]

#[cfg(test)]
mod assertions;
#[cfg(test)]
mod batches;
#[cfg(test)]
mod calls;
#[cfg(test)]
mod choices;
#[cfg(test)]
mod fields;
#[cfg(test)]
mod joins;
#[cfg(test)]
mod journal;
#[cfg(test)]
mod judge;
#[cfg(test)]
mod limits;
#[cfg(test)]
mod made;
#[cfg(test)]
mod opening;
#[cfg(test)]
mod outside;
#[cfg(test)]
mod paired;
#[cfg(test)]
mod queries;
#[cfg(test)]
mod questions;
#[cfg(test)]
mod rects;
#[cfg(test)]
mod second;
#[cfg(test)]
mod splits;
#[cfg(test)]
mod stopping;
#[cfg(test)]
mod texts;
#[cfg(test)]
mod trees;
#[cfg(test)]
mod untold;

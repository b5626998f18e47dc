//! Tests of whole runs that are no rows of a table, with values from outside.
#![tactic(auto)]

#[cfg(test)]
mod assertions;
#[cfg(test)]
mod bent;
#[cfg(test)]
mod calls;
#[cfg(test)]
mod counted;
#[cfg(test)]
mod files;
#[cfg(test)]
mod gates;
#[cfg(test)]
mod joined;
#[cfg(test)]
mod large;
#[cfg(test)]
mod levels;
#[cfg(test)]
mod made;
#[cfg(test)]
mod many;
#[cfg(test)]
mod pages;
#[cfg(test)]
mod plainly;
#[cfg(test)]
mod rereads;
#[cfg(test)]
mod stopped;
#[cfg(test)]
mod told;
#[cfg(test)]
mod turned;
#[cfg(test)]
mod two_leaves;

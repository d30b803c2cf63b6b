//! Tests of reading and of libraries: names and tokens, the parts of declarations, the texts of units, tables by name, and the index of
//! units by what they mention.
//!
//! A row of a table of texts is a text with what is read of it, in words as `told` writes them, or with its fault if it is broken.
#![tactic(auto)]

#[cfg(test)]
mod broken;
#[cfg(test)]
mod copies;
#[cfg(test)]
mod index;
#[cfg(test)]
mod near;
#[cfg(test)]
mod parts;
#[cfg(test)]
mod readers;
#[cfg(test)]
mod refused;
#[cfg(test)]
mod tables;
#[cfg(test)]
mod tokens;
#[cfg(test)]
mod told;
#[cfg(test)]
mod units;

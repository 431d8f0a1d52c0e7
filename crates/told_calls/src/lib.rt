//! Calls below `ltt` that neither a text nor a row of numbers shows: values made by hand, faults, and laws. It holds tests alone.
#![tactic(auto)]

#[cfg(test)]
mod base;
#[cfg(test)]
mod metadata;
#[cfg(test)]
mod words;

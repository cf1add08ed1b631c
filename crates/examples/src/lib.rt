// Examples and vectors, run against the public interface.
#![tactic(auto)]

#[cfg(test)]
mod files;
#[cfg(test)]
mod refusals;

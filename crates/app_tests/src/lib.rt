//! Tests of the words, and of the call that the program makes.
#![tactic(auto)]

#[cfg(test)]
mod calls;
#[cfg(test)]
mod files;
#[cfg(test)]
mod jobs;
#[cfg(test)]
mod plain;
#[cfg(test)]
mod symmetries;
#[cfg(test)]
mod tables;
#[cfg(test)]
mod words;

//! Tests of the board with its tasks and tables, of the text of tables, and of the outside.
#![tactic(auto)]

#[cfg(test)]
mod boards;
#[cfg(test)]
mod outside;
#[cfg(test)]
mod shared;
#[cfg(test)]
mod tables;
#[cfg(test)]
mod tasks;
#[cfg(test)]
mod texts;

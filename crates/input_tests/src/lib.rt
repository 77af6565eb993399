//! Tests of the readers of the input: YAML, expressions and momenta, the parts of schemas, and each of the files. The
//! faults of whole files stand in the tables of examples/refused; each reader has a refusal of one here.
#![tactic(auto)]

#[cfg(test)]
mod family_files;
#[cfg(test)]
mod job_files;
#[cfg(test)]
mod kinematics_files;
#[cfg(test)]
mod list_files;
#[cfg(test)]
mod parts;
#[cfg(test)]
mod shared;
#[cfg(test)]
mod texts;
#[cfg(test)]
mod yaml;

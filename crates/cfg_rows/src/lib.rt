//! Tests what configurations say, in tables of documents.
#![tactic(auto)]

#[cfg(test)]
mod configs;
#[cfg(test)]
mod controls;
#[cfg(test)]
mod documents;
#[cfg(test)]
mod exposes;
#[cfg(test)]
mod pid_numbers;
#[cfg(test)]
mod pids;
#[cfg(test)]
mod reading;
#[cfg(test)]
mod sensor_limits;
#[cfg(test)]
mod sensors;
#[cfg(test)]
mod stepwises;

//! Tests whole scripts through `replay`, over sources and sinks in memory.
#![tactic(auto)]

#[cfg(test)]
mod bank;
#[cfg(test)]
mod blocks;
#[cfg(test)]
mod board_limits;
#[cfg(test)]
mod boards;
#[cfg(test)]
mod boxes;
#[cfg(test)]
mod cases;
#[cfg(test)]
mod channels;
#[cfg(test)]
mod commands;
#[cfg(test)]
mod config_files;
#[cfg(test)]
mod control_limits;
#[cfg(test)]
mod controllers;
#[cfg(test)]
mod documents;
#[cfg(test)]
mod exposes;
#[cfg(test)]
mod faults;
#[cfg(test)]
mod items;
#[cfg(test)]
mod limits;
#[cfg(test)]
mod line_orders;
#[cfg(test)]
mod lines;
#[cfg(test)]
mod logs;
#[cfg(test)]
mod muxes;
#[cfg(test)]
mod patterns;
#[cfg(test)]
mod pids;
#[cfg(test)]
mod play;
#[cfg(test)]
mod probes;
#[cfg(test)]
mod readings;
#[cfg(test)]
mod records;
#[cfg(test)]
mod scripts;
#[cfg(test)]
mod sensors;
#[cfg(test)]
mod stepwises;
#[cfg(test)]
mod ticks;
#[cfg(test)]
mod words;

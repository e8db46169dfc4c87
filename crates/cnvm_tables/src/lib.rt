//! Tables of runs in memory: devices that fail at each event, and sources and sinks that fail at
//! their bytes. It stands on cnvm_cli and holds nothing but tests.
#![tactic(auto)]

#[cfg(test)]
mod byte_sink;
#[cfg(test)]
mod bytes;
#[cfg(test)]
mod devices;
#[cfg(test)]
mod program;
#[cfg(test)]
mod runs;

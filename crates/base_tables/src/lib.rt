//! Tables of the base: operations on words, ports that fail by number, pools, cache lines, devices
//! and images, and the mirrored device: what each step answers, and which copies of a word a crash
//! may leave of its file. It stands on the base crates and holds nothing but tests.
#![tactic(auto)]

#[cfg(test)]
mod devices;
#[cfg(test)]
mod file_pools;
#[cfg(test)]
mod images;
#[cfg(test)]
mod mirrors;
#[cfg(test)]
mod operations;
#[cfg(test)]
mod pools;
#[cfg(test)]
mod ports;
#[cfg(test)]
mod std_places;
#[cfg(test)]
mod versions;

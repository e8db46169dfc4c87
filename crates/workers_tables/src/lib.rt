//! Tables of runs of two workers on one device: cut at each of their events, with a device that
//! fails at each of them, and in every order of their turns. It rests on `pool_workers` and
//! contains only tests.
#![tactic(auto)]

#[cfg(test)]
mod orders;
#[cfg(test)]
mod program;
#[cfg(test)]
mod runs;
#[cfg(test)]
mod tables;

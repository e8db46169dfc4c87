//! Tables of code: small programs of three-address code run on the machine; and the marks of 2,500
//! drawn programs and of fixed ones, each site of which is compared with a second reading of the
//! walks that `ir` defines, with their certificates, also damaged ones. Code that is written by
//! hand is asked first whether it is well formed. It stands on `codegen` and `walk_maker`, and
//! holds nothing but tests and that question.
#![tactic(auto)]

#[cfg(test)]
mod cases;
#[cfg(test)]
mod compare;
#[cfg(test)]
mod damage;
#[cfg(test)]
mod draws;
#[cfg(test)]
mod explained;
#[cfg(test)]
mod kept;
#[cfg(test)]
mod lines;
#[cfg(test)]
mod machine_runs;
#[cfg(test)]
mod programs;
#[cfg(test)]
mod rows;
#[cfg(test)]
mod walks;
mod well_formed;

pub use well_formed::is_well_formed;

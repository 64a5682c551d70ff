//! Tests of `plan_run`: modules from their bytes to the bytes, cells and values that a run leaves.
//!
//! `rows` lists small modules and what is seen of them, and `laying` plans and runs one.
#![tactic(auto)]

#[cfg(test)]
mod laying;
#[cfg(test)]
mod row;
#[cfg(test)]
mod rows;

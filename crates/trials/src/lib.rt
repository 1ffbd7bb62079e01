//! Tests of the crates below the program, through their public calls.
#![tactic(auto)]

#[cfg(test)]
mod cabs;
#[cfg(test)]
mod call_lists;
#[cfg(test)]
mod checks;
#[cfg(test)]
mod comparisons;
#[cfg(test)]
mod desks;
#[cfg(test)]
mod noting;
#[cfg(test)]
mod orderings;
#[cfg(test)]
mod plans;
#[cfg(test)]
mod rows;
#[cfg(test)]
mod runs;
#[cfg(test)]
mod signs;
#[cfg(test)]
mod telegrams;
#[cfg(test)]
mod train_ends;
#[cfg(test)]
mod units;
#[cfg(test)]
mod windows;

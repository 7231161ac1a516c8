//! Whole runs of scripts through the top call, as tests: what a script prints, which lines are refused, what a
//! fault leaves, and the greatest sizes.
#![tactic(auto)]

#[cfg(test)]
mod bad_lines;
#[cfg(test)]
mod built;
#[cfg(test)]
mod faults;
#[cfg(test)]
mod forms;
#[cfg(test)]
mod sizes;
#[cfg(test)]
mod stages;

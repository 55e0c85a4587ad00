//! Tests of the libraries, from outside. A crate's tests are proved along with the whole crate, so they stand together here.
#![tactic(auto)]

#[cfg(test)]
mod busy_tests;
#[cfg(test)]
mod check_tests;
#[cfg(test)]
mod core_tests;
#[cfg(test)]
mod cost_tests;
#[cfg(test)]
mod demand_tests;
#[cfg(test)]
mod driver_tests;
#[cfg(test)]
mod fewest_tests;
#[cfg(test)]
mod flow_tests;
#[cfg(test)]
mod gen_tests;
#[cfg(test)]
mod image_tests;
#[cfg(test)]
mod io_tests;
#[cfg(test)]
mod judge_tests;
#[cfg(test)]
mod link_tests;
#[cfg(test)]
mod machine_tests;
#[cfg(test)]
mod make_tests;
#[cfg(test)]
mod num_tests;
#[cfg(test)]
mod parse_tests;
#[cfg(test)]
mod programs;
#[cfg(test)]
mod rename_tests;
#[cfg(test)]
mod schedule_tests;
#[cfg(test)]
mod script_tests;
#[cfg(test)]
mod show_tests;
#[cfg(test)]
mod slice_tests;
#[cfg(test)]
mod target_tests;
#[cfg(test)]
mod token_tests;
#[cfg(test)]
mod trace_tests;
#[cfg(test)]
mod tree_tests;
#[cfg(test)]
mod verify_tests;
#[cfg(test)]
mod word_tests;

// Cases for the stores, by tables of calls and answers.
#![tactic(auto)]

#[cfg(test)]
mod fixed_cases;
#[cfg(test)]
mod shape_cases;
#[cfg(test)]
mod single_cases;
#[cfg(test)]
mod tables;

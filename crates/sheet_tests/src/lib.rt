// Cases for the two readers: numbers and positions of refusals, what is read, and that a refused place keeps what it held.
#![tactic(auto)]

#[cfg(test)]
mod formula_cases;
#[cfg(test)]
mod model_cases;

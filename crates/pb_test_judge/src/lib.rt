//! Tests of `judge` and `cost` beside slow programs: what is ruled on the logs that simulations write, and on each with one line or one
//! word changed, is what the definition rules; what is told of messages and words is what each sequential run at one N sends; and
//! output that fails is told. `checks/sessions` shows the rest.
#![tactic(auto)]

#[cfg(test)]
mod changes;
#[cfg(test)]
mod cost_tests;
#[cfg(test)]
mod judge_tests;
#[cfg(test)]
mod lines;
#[cfg(test)]
mod printed;
#[cfg(test)]
mod ruling_tests;
#[cfg(test)]
mod runs;
#[cfg(test)]
mod runs_tests;
#[cfg(test)]
mod slow;
#[cfg(test)]
mod worlds;

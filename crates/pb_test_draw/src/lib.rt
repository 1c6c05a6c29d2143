//! Tests of what is drawn of a log: the mates, the times, the sums and the layout of its events, those that a slow program finds.
//! `checks/draw.py` shows how lines are read, and the pictures.
#![tactic(auto)]

#[cfg(test)]
mod layout_tests;
#[cfg(test)]
mod logs;
#[cfg(test)]
mod rows;
#[cfg(test)]
mod slow;
#[cfg(test)]
mod times_tests;

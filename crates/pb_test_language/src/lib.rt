//! Tests of names, numbers, words, folders and sinks, of demos and sound cores, and of numbers that move with N: lins and guards, cases
//! and areas of them, and systems of constraints on differences.
#![tactic(auto)]

#[cfg(test)]
mod affine_tests;
#[cfg(test)]
mod apart_tests;
#[cfg(test)]
mod areas_tests;
#[cfg(test)]
mod cases_tests;
#[cfg(test)]
mod columns;
#[cfg(test)]
mod core_sound_tests;
#[cfg(test)]
mod demo_file_tests;
#[cfg(test)]
mod diff_tests;
#[cfg(test)]
mod io_tests;
#[cfg(test)]
mod rows;
#[cfg(test)]
mod text_read_tests;
#[cfg(test)]
mod text_tests;

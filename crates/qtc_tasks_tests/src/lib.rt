//! The tests of tasks, synchronizers, ready futures and nested ones, in a crate above their library, so that it isn't proved
//! once more for them.
#![tactic(auto)]

#[cfg(test)]
mod halves;
#[cfg(test)]
mod made;
#[cfg(test)]
mod nested;
#[cfg(test)]
mod races;
#[cfg(test)]
mod rows;
#[cfg(test)]
mod synchronizers;
#[cfg(test)]
mod uses;

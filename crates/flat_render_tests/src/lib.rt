//! Tests of the renderer and of damage.
#![tactic(auto)]

#[cfg(test)]
mod damages;
#[cfg(test)]
mod edges;
#[cfg(test)]
mod flips;
#[cfg(test)]
mod pictures;
#[cfg(test)]
mod scenes;

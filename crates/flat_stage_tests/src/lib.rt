//! Tests of what runs on threads below the program: the lock, published frames with probes
//! beside them, and the stage with its seats. They ask what no contract says, and what no
//! worked case on the program reaches. whole.rt composes a frame in two ways.
#![tactic(auto)]

#[cfg(test)]
mod cast;
#[cfg(test)]
mod journal;
#[cfg(test)]
mod lock;
#[cfg(test)]
mod probes;
#[cfg(test)]
mod ratios;
#[cfg(test)]
mod seats;
#[cfg(test)]
mod whole;

//! Tests of the lower layers: numbers and rectangles, sources and sinks, a session's draft and what
//! it is made of, watchers, and who waits in vain. They ask what no contract says, and what no
//! worked case on the program reaches.
#![tactic(auto)]

#[cfg(test)]
mod base;
#[cfg(test)]
mod draft;
#[cfg(test)]
mod geom;
#[cfg(test)]
mod graph;
#[cfg(test)]
mod io;
#[cfg(test)]
mod sweep;
#[cfg(test)]
mod waits;
#[cfg(test)]
mod watch;

//! Tests of scripts and text, of extra lines, of the focus chain, and of pointer streams.
#![tactic(auto)]

#[cfg(test)]
mod bodies;
#[cfg(test)]
mod extra;
#[cfg(test)]
mod focus;
#[cfg(test)]
mod frames;
#[cfg(test)]
mod limits;
#[cfg(test)]
mod outcome;
#[cfg(test)]
mod pointer;
#[cfg(test)]
mod printing;
#[cfg(test)]
mod probes;
#[cfg(test)]
mod script;
#[cfg(test)]
mod text;
#[cfg(test)]
mod texts;
#[cfg(test)]
mod versions;
#[cfg(test)]
mod viewports;

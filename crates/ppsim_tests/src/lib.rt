//! Tests of what no clause says: calls with values worked by hand, what runs in threads, and what
//! happens where memory is refused or a device fails.
#![tactic(auto)]

#[cfg(test)]
mod calls;
#[cfg(test)]
mod loaded;
#[cfg(test)]
mod refusals;
#[cfg(test)]
mod sweep;
#[cfg(test)]
mod threads;

//! Worked examples of role codes: machines, sessions, hosts and parked sessions. The tests are the examples, of what no command shows.
#![tactic(auto)]

#[cfg(test)]
mod hosts;
#[cfg(test)]
mod machines;
#[cfg(test)]
mod parked;
#[cfg(test)]
mod sessions;
#[cfg(test)]
mod starting;

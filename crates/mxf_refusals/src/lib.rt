//! Tests of the libraries, by their public items, of what no run of a program shows. Each call that takes memory has
//! one.
//!
//! Each growth is refused in turn: tests/refusals runs each test again and again, and refuses it one growth of memory a
//! run. So a test holds whichever it is: a call answers what it has to, or is out of memory; then what it promised
//! stands, and the same call answers. A test named `without_memory..` is refused all growths from one on: it gives up
//! if it can't prepare, and once it has, what it calls answers.
#![tactic(auto)]

#[cfg(test)]
mod additions;
#[cfg(test)]
mod at_hand;
#[cfg(test)]
mod clocks;
#[cfg(test)]
mod files;
#[cfg(test)]
mod finds;
#[cfg(test)]
mod heads;
#[cfg(test)]
mod looked_up;
#[cfg(test)]
mod pieces;
#[cfg(test)]
mod plans;
#[cfg(test)]
mod readers;
#[cfg(test)]
mod readings;
#[cfg(test)]
mod renewals;
#[cfg(test)]
mod tracks;
#[cfg(test)]
mod unions;
#[cfg(test)]
mod unit_plans;
#[cfg(test)]
mod units;
#[cfg(test)]
mod values;
#[cfg(test)]
mod verifying;
#[cfg(test)]
mod without;
#[cfg(test)]
mod written;

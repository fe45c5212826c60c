//! Tests of the crates of `nethrywel`: devices that fail, and a host that states what it has.

mod devices;
mod hosts;

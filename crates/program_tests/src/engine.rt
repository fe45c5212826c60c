//! Tests of the engine: worked rows on other machines, devices that fail, and a host that is out of memory.

mod arguments;
mod configs;
mod device_calls;
mod faults;
mod init_requests;
mod refused_memory;
mod rows;
mod tasks;
mod tries;

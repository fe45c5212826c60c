//! The devices of a run: sources and sinks, readers and writers as devices, and the buffer of bytes that are still to be written.
//! Every run and every command that prints uses it. A device that failed isn't asked again. Example: `Input::new(reader)` is a
//! reader as a source.
#![tactic(auto)]

mod bytes;
mod device;
mod input;
mod output;
mod write_buffer;

pub use device::{DeviceFault, Sink, Source};
pub use input::Input;
pub use output::Output;
pub use write_buffer::{WriteBuffer, write_out};

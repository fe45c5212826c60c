//! How often a device is called: once a call of an `Input` or an `Output`, also after a failure.
use cli_engine::{DeviceFault, Input, Output, Sink, Source};
use std::io;
use std::io::{Read, Write};

// A device that counts its calls, and answers the first call with an error of this kind.
#[derive(Drop)]
struct CallCounter {
    calls: u64,
    fault: io::ErrorKind,
}

impl CallCounter {
    fn count(&mut self) -> io::Result<()> {
        self.calls = self.calls.saturating_add(1);
        if self.calls == 1 {
            return Err(io::Error::from(self.fault));
        }
        Ok(())
    }
}

impl Read for CallCounter {
    fn read(&mut self, buf: &mut [u8]) -> io::Result<usize> {
        self.count()?;
        Ok(buf.len())
    }
}

impl Write for CallCounter {
    fn write(&mut self, buf: &[u8]) -> io::Result<usize> {
        self.count()?;
        Ok(buf.len())
    }

    fn flush(&mut self) -> io::Result<()> {
        Ok(())
    }
}

// Returns whether a read that fails is one call of the device.
fn reads_once(fault: io::ErrorKind) -> bool {
    let mut input = Input::new(CallCounter { calls: 0, fault });
    let failed = input.read(&mut [0; 4]) == Err(DeviceFault) && input.failed();
    input.into_inner().calls == 1 && failed
}

// Returns whether a write that fails is one call of the device.
fn writes_once(fault: io::ErrorKind) -> bool {
    let mut output = Output::new(CallCounter { calls: 0, fault });
    let failed = output.write(b"text") == Err(DeviceFault) && output.failed();
    output.into_inner().calls == 1 && failed
}

// The device answers after its first call, but it isn't called a second time.
#[test]
fn a_device_is_called_once_a_call(rt: HostRuntime) {
    for fault in [io::ErrorKind::Interrupted, io::ErrorKind::Other] {
        assert!(rt; reads_once(fault) && writes_once(fault));
    }
}

// A device that accepts one byte in each call.
#[derive(Drop)]
struct OneByteWriter {
    calls: u64,
}

impl Write for OneByteWriter {
    fn write(&mut self, buf: &[u8]) -> io::Result<usize> {
        self.calls = self.calls.saturating_add(1);
        Ok(buf.len().min(1))
    }

    fn flush(&mut self) -> io::Result<()> {
        Ok(())
    }
}

// Returns whether a short write is reported at once as a short write.
fn is_handed_on() -> bool {
    let mut output = Output::new(OneByteWriter { calls: 0 });
    let first = output.write(b"text") == Ok(1) && !output.failed();
    let second = first && output.write(b"ext") == Ok(1);
    output.into_inner().calls == 2 && second
}

#[test]
fn a_write_is_handed_on_at_once(rt: HostRuntime) {
    assert!(rt; is_handed_on());
}

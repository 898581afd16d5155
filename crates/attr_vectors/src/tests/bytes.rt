//! The program with `--lines` succeeds on each byte alone, also if standard error takes nothing.
use super::status_of;
use crate::devices::Sink;

#[test]
fn each_byte_alone_succeeds(rt: HostRuntime) {
    for byte in 0..=u8::MAX {
        let (input, output) = ([byte], Vec::new(rt.alloc()));
        let mut errors = Sink::new(Vec::new(rt.alloc()), 0);
        errors.fails_flush = true;
        let status = status_of(rt.alloc(), "--lines", input.as_slice(), output, errors);
        assert_eq!(rt; status, Ok(0), "byte {byte}");
    }
}

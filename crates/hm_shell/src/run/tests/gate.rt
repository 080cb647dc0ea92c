// A run with a gate that ends the test where it is called.

use super::*;
use std::process::Abort;

#[derive(Drop)]
struct Forbidden<'a, R: Abort>(&'a R);

impl<'a, R: Abort> Gate for Forbidden<'a, R> {
    fn before(&self, _lane: u8, line: u32) {
        panic!(self.0; "before line {line}");
    }

    fn between(&self, lane: u8) {
        panic!(self.0; "between steps of lane {lane}");
    }

    fn after(&self, _lane: u8, line: u32) {
        panic!(self.0; "after line {line}");
    }
}

#[test]
fn calls_no_gate(rt: HostRuntime) -> Result<(), Fail> {
    let alloc = rt.alloc();
    let script = b"mkdir /a\n# remark\nls /\n".to_vec(alloc)?;
    let devices = in_memory(alloc, blank(&rt), script, &[], &[])?;
    let ended = run(&rt, &owned(alloc, &MAKES)?, devices, &Forbidden(&rt));
    let (status, out, _) = parts(ended);
    assert_eq!(rt; status, 0);
    let printed = b"0x0000000000000002 ok\n0x0000000000000003 ok 1 d:a\n".as_slice();
    assert_eq!(rt; out.bytes(), printed);
    Ok(())
}

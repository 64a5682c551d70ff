//! The devices that no case of `plan_cases` uses.

use devices::{CountSink, SliceSource, read_all, write_all};
use std::test::Fail;

#[test]
fn bytes_go_from_a_slice_to_a_count(rt: HostRuntime) -> Result<(), Fail> {
    let mut source = SliceSource::new(b"abcdef");
    let mut store = Vec::new(rt.alloc());
    assert_eq!(rt; read_all(&mut source, &mut store, 64), Ok(()));
    assert_eq!(rt; store.as_slice(), b"abcdef".as_slice());
    let mut sink = CountSink::new();
    write_all(&mut sink, store.as_slice())?;
    write_all(&mut sink, b"")?;
    assert_eq!(rt; sink.total(), 6);
    Ok(())
}

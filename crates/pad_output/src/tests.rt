//! A text in pieces, and a write that fails.
use super::write_all;
use pad_edge::MemSink;
use std::test::Fail;

#[test]
fn a_text_is_written_piece_by_piece(rt: HostRuntime) -> Result<(), Fail> {
    let alloc = rt.alloc();
    let mut sink = MemSink::new(vec![in alloc; b' '; 16]?, 3, Vec::new(alloc));
    let whole = write_all(&mut sink, b"entries 2\n");
    assert!(rt; whole.is_ok());
    assert_eq!(rt; sink.as_slice(), b"entries 2\n".as_slice());
    Ok(())
}

#[test]
fn a_failed_write_leaves_the_front(rt: HostRuntime) -> Result<(), Fail> {
    let alloc = rt.alloc();
    let mut failing = Vec::new(alloc);
    failing.push(2)?;
    let mut sink = MemSink::new(vec![in alloc; b' '; 16]?, 3, failing);
    let part = write_all(&mut sink, b"entries 2\n");
    assert!(rt; part.is_err());
    assert_eq!(rt; sink.as_slice(), b"entrie".as_slice());
    Ok(())
}

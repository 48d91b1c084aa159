use super::{ALL_UNSENT_BYTES, AllUnsent, Outbox};
use std::test::Fail;

/// The bytes that go out next, of which so many are gone at once, and how many wait after that.
fn write(outbox: &mut Outbox, piece: &str, count: usize) -> Option<usize> {
    if outbox.piece() != piece.as_bytes() {
        return None;
    }
    outbox.sent(count.min(outbox.piece().len()));
    Some(outbox.unsent())
}

#[test]
fn bytes_go_out_in_order(rt: HostRuntime) -> Result<(), Fail> {
    let mut outbox = Outbox::new(rt.alloc());
    outbox.push(b"ab".to_vec(rt.alloc())?)?;
    outbox.push(b"cde".to_vec(rt.alloc())?)?;
    for (piece, count, left) in [
        ("ab", 1, 4),
        ("b", 1, 3),
        ("cde", 2, 1),
        ("e", 1, 0),
        ("", 0, 0),
    ] {
        assert_eq!(rt; write(&mut outbox, piece, count), Some(left));
    }
    Ok(())
}

#[test]
fn what_waits_in_all_is_counted(rt: HostRuntime) -> Result<(), Fail> {
    let mut all = AllUnsent::new();
    let room = all.room();
    all.change(0, 5);
    all.change(5, 2);
    assert_eq!(rt; room - all.room(), 2);
    Ok(())
}

#[test]
fn it_refuses_once_it_was_told(rt: HostRuntime) -> Result<(), Fail> {
    let mut outbox = Outbox::new(rt.alloc());
    assert!(rt; outbox.is_empty());
    outbox.push(b"ab".to_vec(rt.alloc())?)?;
    outbox.judge(1);
    assert!(rt; !outbox.refuses());
    assert_eq!(rt; outbox.room(), ALL_UNSENT_BYTES - 2);
    outbox.refuse();
    assert!(rt; outbox.refuses());
    Ok(())
}

// What no clause says: that calls succeed where memory is there, and how files and sinks go on after a fault.
use ltt_base::{
    Boxed, Copied, DiskFiles, Failed, Files, List, MemFiles, MemSink, ReadFault, Same, Stack, Text,
    read_file, write_all,
};
use std::collections::BTreeMap;
use std::test::Fail;

#[test]
fn texts_are_lists_of_bytes(rt: HostRuntime) -> Result<(), Fail> {
    let mut text = Text::new(rt.alloc());
    text.push(b'a')?;
    text.extend(b"bc")?;
    let copy = text.copied(rt.alloc())?;
    assert!(rt; copy.is_bytes(b"abc"));
    assert!(rt; copy == text);
    Ok(())
}

#[test]
fn texts_are_keys_in_the_order_of_their_bytes(rt: HostRuntime) -> Result<(), Fail> {
    let mut lengths = BTreeMap::new(rt.alloc());
    lengths.insert(Text::copy(rt.alloc(), b"b")?, 1u32)?;
    lengths.insert(Text::copy(rt.alloc(), b"ab")?, 2u32)?;
    assert_eq!(rt;
        lengths.first_key_value().map(|(_, length)| *length),
        Some(2)
    );
    Ok(())
}

#[test]
fn lists_hold_their_items(rt: HostRuntime) -> Result<(), Fail> {
    let mut list = List::new(rt.alloc());
    list.add(1u64)?;
    let mut more = List::new(rt.alloc());
    more.add(3u64)?;
    list.append(more)?;
    *list.at_mut(0) = 8;
    let boxed = Boxed::new(rt.alloc(), list)?;
    assert!(rt; boxed.copied(rt.alloc())?.is(&boxed));
    assert_eq!(rt; boxed.into_inner().into_vec().as_slice(), [8, 3].as_slice());
    Ok(())
}

#[test]
fn a_stack_gives_the_last_first(rt: HostRuntime) {
    let mut stack = Stack::new(rt.alloc());
    assert!(rt; stack.push(1u8).is_ok());
    assert!(rt; stack.push(2u8).is_ok());
    assert_eq!(rt; stack.pop(), Some(2));
    assert_eq!(rt; stack.top().copied(), Some(1));
}

#[test]
fn a_replaced_file_is_read_again_after_a_fault(rt: HostRuntime) -> Result<(), Fail> {
    let mut files = MemFiles::new(rt.alloc());
    files.add("a", b"first")?;
    files.add("a", b"second")?;
    files.fail_read(2)?;
    assert!(rt;
        matches!(
            read_file(rt.alloc(), &mut files, "a", 6),
            Err(ReadFault::Failed)
        )
    );
    let text = read_file(rt.alloc(), &mut files, "a", 6)?;
    assert!(rt; text.is_bytes(b"second"));
    Ok(())
}

#[test]
fn a_select_fails_once(rt: HostRuntime) -> Result<(), Fail> {
    let mut files = MemFiles::new(rt.alloc());
    files.add("a", b"")?;
    files.fail_select(1)?;
    assert!(rt; matches!(files.select("a"), Err(Failed)));
    assert!(rt; matches!(files.select("b"), Err(Failed)));
    assert!(rt; files.select("a").is_ok());
    Ok(())
}

#[test]
fn a_name_without_a_file_fails(rt: HostRuntime) {
    let mut files = DiskFiles::new(rt);
    assert!(rt; matches!(files.select("no such file"), Err(Failed)));
}

#[test]
fn a_text_is_written_in_pieces(rt: HostRuntime) -> Result<(), Fail> {
    let mut out = MemSink::new(rt.alloc(), 7, 2)?;
    out.fail_write(4)?;
    write_all(&mut out, b"abcde")?;
    assert!(rt; matches!(write_all(&mut out, b"x"), Err(Failed)));
    assert!(rt; matches!(write_all(&mut out, b"fgh"), Err(Failed)));
    assert_eq!(rt; out.taken(), b"abcdefg".as_slice());
    Ok(())
}

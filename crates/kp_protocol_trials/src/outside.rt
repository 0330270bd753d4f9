use kp_io::{
    Bytes, Disk, Drain, Failed, Files, Incoming, LoadFault, Outgoing, OutsideFault, Shelf, Sink,
    Source, SureBytes, SureDrain, put_all, read_all,
};
use std::alloc::Global;
use std::collections::VecDeque;
use std::test::Fail;

/// Whether a source gives its bytes up to its end.
fn all_bytes_are_read(alloc: Global) -> Result<bool, Fail> {
    let mut source = SureBytes::new(vec![in alloc; 1, 2, 3, 4, 5]?);
    let bytes = read_all(alloc, &mut source, 5)?;
    Ok(bytes.as_slice() == [1, 2, 3, 4, 5].as_slice() && source.faults() == 0)
}

/// Whether more than the limit is too long.
fn more_is_too_long(alloc: Global) -> Result<bool, Fail> {
    let mut source = SureBytes::new(vec![in alloc; 1, 2, 3]?);
    let told = read_all(alloc, &mut source, 2);
    Ok(matches!(told, Err(LoadFault::TooLong)))
}

/// A source of three bytes whose second call fails.
fn failing_source(alloc: Global) -> Result<Bytes, Fail> {
    Ok(Bytes::new(vec![in alloc; 1, 2, 3]?, vec![in alloc; 2]?))
}

/// Whether two bytes are taken, and none by the call that fails.
fn two_are_taken(source: &mut Bytes) -> bool {
    let mut buf = [0u8; 2];
    source.take(&mut buf) == Ok(2) && source.take(&mut buf) == Err(Failed) && source.faults() == 1
}

/// Whether a call that fails in mid-stream takes nothing.
fn a_failed_call_takes_nothing(alloc: Global) -> Result<bool, Fail> {
    let mut source = failing_source(alloc)?;
    let taken = two_are_taken(&mut source);
    let rest = read_all(alloc, &mut source, 10)?;
    Ok(taken && rest.as_slice() == [3].as_slice())
}

/// Whether a failed source fails the reading.
fn a_failed_call_fails_the_reading(alloc: Global) -> Result<bool, Fail> {
    let mut source = failing_source(alloc)?;
    let told = read_all(alloc, &mut source, 10);
    Ok(matches!(told, Err(LoadFault::Failed)))
}

#[test]
fn sources_give_their_bytes(rt: HostRuntime) -> Result<(), Fail> {
    let alloc = rt.alloc();
    assert!(rt; all_bytes_are_read(alloc)?);
    assert!(rt; more_is_too_long(alloc)?);
    assert!(rt; a_failed_call_takes_nothing(alloc)?);
    assert!(rt; a_failed_call_fails_the_reading(alloc)?);
    Ok(())
}

/// Whether a sink holds what was put.
fn what_was_put_is_held(alloc: Global) -> bool {
    let mut sink = SureDrain::new(alloc);
    put_all(&mut sink, &[1, 2]) == Ok(())
        && sink.put(&[3]) == Ok(1)
        && sink.bytes() == [1, 2, 3].as_slice()
        && sink.faults() == 0
}

/// Whether a put that fails puts nothing.
fn a_failed_put_puts_nothing(alloc: Global) -> Result<bool, Fail> {
    let mut sink = Drain::new(alloc, vec![in alloc; 2]?);
    let told = put_all(&mut sink, &[1, 2]) == Ok(())
        && put_all(&mut sink, &[3]) == Err(OutsideFault::Failed)
        && put_all(&mut sink, &[4]) == Ok(());
    Ok(told && sink.bytes() == [1, 2, 4].as_slice() && sink.faults() == 1)
}

/// Whether the file is loaded as these bytes.
fn holds<S: Shelf>(alloc: Global, shelf: &mut S, name: &str, bytes: &[u8]) -> bool {
    let told = shelf.load(alloc, name);
    matches!(&told, Ok(Some(held)) if held.as_slice() == bytes)
}

/// Whether there is no such file.
fn lacks<S: Shelf>(alloc: Global, shelf: &mut S, name: &str) -> bool {
    let told = shelf.load(alloc, name);
    matches!(told, Ok(None))
}

/// Whether the file can't be loaded.
fn fails<S: Shelf>(alloc: Global, shelf: &mut S, name: &str) -> bool {
    let told = shelf.load(alloc, name);
    matches!(told, Err(LoadFault::Failed))
}

/// Whether files are loaded as they were stored; the third call fails.
fn files_are_loaded(alloc: Global) -> Result<bool, Fail> {
    let mut files = Files::new(alloc, vec![in alloc; 3]?);
    Ok(
        files.store("a", &[1, 2]) == Ok(())
            && files.store("a", &[7]) == Ok(())
            && fails(alloc, &mut files, "a")
            && files.faults() == 1
            && holds(alloc, &mut files, "a", &[7])
            && lacks(alloc, &mut files, "b"),
    )
}

#[test]
fn sinks_and_files_hold_what_was_put(rt: HostRuntime) -> Result<(), Fail> {
    let alloc = rt.alloc();
    assert!(rt; what_was_put_is_held(alloc));
    assert!(rt; a_failed_put_puts_nothing(alloc)?);
    assert!(rt; files_are_loaded(alloc)?);
    Ok(())
}

/// Whether a reader of std is a source.
fn a_reader_is_a_source(alloc: Global) -> Result<bool, Fail> {
    let mut source = Incoming::new(VecDeque::from(vec![in alloc; 1, 2]?));
    let bytes = read_all(alloc, &mut source, 2)?;
    Ok(bytes.as_slice() == [1, 2].as_slice())
}

/// Whether a writer of std is a sink.
fn a_writer_is_a_sink(alloc: Global) -> bool {
    let mut sink = Outgoing::new(VecDeque::new(alloc));
    put_all(&mut sink, &[5]) == Ok(()) && sink.faults() == 0
}

#[test]
fn the_hosts_streams_serve(rt: HostRuntime) -> Result<(), Fail> {
    assert!(rt; a_reader_is_a_source(rt.alloc())?);
    assert!(rt; a_writer_is_a_sink(rt.alloc()));
    Ok(())
}

#[test]
fn the_hosts_files_serve(rt: HostRuntime) {
    let alloc = rt.alloc();
    let mut disk = Disk::new(&rt);
    assert!(rt; lacks(alloc, &mut disk, "kp_io_test_none"));
    assert_eq!(rt; disk.store("kp_io_test", &[1, 2, 3]), Ok(()));
    assert!(rt; holds(alloc, &mut disk, "kp_io_test", &[1, 2, 3]));
    assert_eq!(rt;
        disk.store("kp_io_none/kp_io_test", &[1]),
        Err(OutsideFault::Failed)
    );
    assert_eq!(rt; disk.faults(), 1);
    assert!(rt; fails(alloc, &mut disk, "kp_io_test/kp_io_test"));
    assert_eq!(rt; disk.faults(), 2);
}

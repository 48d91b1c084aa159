use super::{FileVolume, ReaderSource, SystemClock, WriterSink};
use disk_volume::Volume;
use pad_edge::{Clock, Failed, Sink, Source};
use std::fs;
use std::test::Fail;

fn now_of<C: Clock>(clock: &mut C) -> u64 {
    clock.now()
}

fn read_from<S: Source>(source: &mut S, buf: &mut [u8]) -> Result<usize, Failed> {
    source.read(buf)
}

fn write_to<S: Sink>(sink: &mut S, piece: &[u8]) -> Result<usize, Failed> {
    sink.write(piece)
}

fn length_of<V: Volume>(volume: &mut V, file: &str) -> Option<u64> {
    volume.length(file).ok()
}

#[test]
fn a_folder_keeps_a_file(rt: HostRuntime) -> Result<(), Fail> {
    let mut volume = FileVolume::new(rt.alloc(), rt.clone()?);
    assert_eq!(rt; length_of(&mut volume, "a"), None);
    assert!(rt; volume.root("made/here").is_ok());
    assert_eq!(rt; length_of(&mut volume, "a"), Some(0));
    assert!(rt; volume.sync("a").is_ok());
    assert!(rt; volume.write_at("a", 0, b"abcdef").is_ok());
    assert!(rt; volume.sync("a").is_ok());
    let mut buf = [0u8; 4];
    assert_eq!(rt; volume.read_at("a", 3, &mut buf).ok(), Some(3));
    assert_eq!(rt; &buf[..3], b"def".as_slice());
    assert!(rt; volume.write_at("a", 4, b"xyz").is_ok());
    assert_eq!(rt; volume.read_at("a", 3, &mut buf).ok(), Some(4));
    assert_eq!(rt; &buf, b"dxyz");
    assert_eq!(rt; volume.read_at("a", 7, &mut buf).ok(), Some(0));
    assert!(rt; volume.cut("a", 5).is_ok());
    assert_eq!(rt; volume.read_at("a", 2, &mut buf).ok(), Some(3));
    assert_eq!(rt; &buf[..3], b"cdx".as_slice());
    assert!(rt; volume.cut("a", 2).is_ok());
    assert!(rt; volume.sync("a").is_ok());
    assert_eq!(rt; length_of(&mut volume, "a"), Some(2));
    assert_eq!(rt; fs::read(&rt, "made/here/a")?.as_slice(), b"ab".as_slice());
    fs::remove_dir_all(&rt, "made")?;
    Ok(())
}

#[test]
fn the_clock_shows_a_moment_after_2020(rt: HostRuntime) -> Result<(), Fail> {
    assert!(rt; now_of(&mut SystemClock::new(rt.clone()?)) > 1_600_000_000);
    Ok(())
}

#[test]
fn readers_and_writers_move_bytes(rt: HostRuntime) -> Result<(), Fail> {
    let mut source = ReaderSource::new(b"abc".as_slice());
    let mut buf = [0u8; 2];
    assert_eq!(rt; read_from(&mut source, &mut buf).ok(), Some(2));
    assert_eq!(rt; buf, *b"ab");
    let mut sink = WriterSink::new(Vec::new(rt.alloc()));
    assert_eq!(rt; write_to(&mut sink, b"xy").ok(), Some(2));
    Ok(())
}

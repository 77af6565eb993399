//! What no clause says: that calls succeed, and what the host's forms do over real files.

use kira_outside::{
    Entry, Failed, Files, HostFiles, HostSink, LoadFault, MemoryFiles, MemorySink, Sink, Text8,
};
use std::alloc::Global;
use std::fs;
use std::test::Fail;

fn entry(alloc: Global, name: &str, bytes: &[u8]) -> Result<Entry, Fail> {
    Ok(Entry {
        name: Text8::new(alloc, name)?,
        bytes: bytes.to_vec(alloc)?,
    })
}

#[test]
fn memory_files_give_the_first_of_a_name_and_fail_by_number(rt: HostRuntime) -> Result<(), Fail> {
    let alloc = rt.alloc();
    let mut entries = Vec::new(alloc);
    entries.push(entry(alloc, "a", b"first")?)?;
    entries.push(entry(alloc, "a", b"second")?)?;
    let mut files = MemoryFiles::new(entries, vec![in alloc; 2]?);
    assert_eq!(rt; files.load(alloc, "a", 9)?.as_slice(), b"first".as_slice());
    assert!(rt; matches!(files.load(alloc, "a", 9), Err(LoadFault::Failed)));
    assert_eq!(rt; files.load(alloc, "a", 3)?.as_slice(), b"fir".as_slice());
    assert!(rt; matches!(files.load(alloc, "b", 9), Err(LoadFault::Missing)));
    Ok(())
}

#[test]
fn a_memory_sink_takes_pieces_up_to_its_room(rt: HostRuntime) -> Result<(), Fail> {
    let alloc = rt.alloc();
    let mut sink = MemorySink::new(alloc, vec![in alloc; 3]?, 2, 5)?;
    assert!(rt; matches!(sink.write(b"abc"), Ok(2)));
    assert!(rt; sink.flush().is_ok());
    assert!(rt; sink.write(b"c").is_err());
    assert!(rt; matches!(sink.write(b"cd"), Ok(2)));
    assert!(rt; sink.write(b"ef").is_err());
    assert!(rt; matches!(sink.write(b"e"), Ok(1)));
    assert_eq!(rt; sink.bytes(), b"abcde".as_slice());
    Ok(())
}

#[test]
fn host_files_read_the_folder_of_the_program(rt: HostRuntime) -> Result<(), Fail> {
    let alloc = rt.alloc();
    fs::write(&rt, "held", "a line\n")?;
    fs::create_dir(&rt, "folder")?;
    let mut files = HostFiles::new(rt);
    assert_eq!(rt;
        files.load(alloc, "held", 100)?.as_slice(),
        b"a line\n".as_slice()
    );
    assert_eq!(rt;
        files.load(alloc, "held", 4)?.as_slice(),
        b"a li".as_slice()
    );
    assert!(rt; matches!(files.load(alloc, "absent", 4), Err(LoadFault::Missing)));
    assert!(rt; matches!(files.load(alloc, "folder", 4), Err(LoadFault::Failed)));
    Ok(())
}

#[test]
fn a_host_sink_writes_to_its_stream(rt: HostRuntime) -> Result<(), Fail> {
    let alloc = rt.alloc();
    let mut sink = HostSink::new(fs::create(&rt, "written")?);
    assert!(rt; matches!(sink.write(b"two words"), Ok(9)));
    assert!(rt; sink.flush().is_ok());
    let mut refused = HostSink::new(fs::open(&rt, "written")?);
    assert!(rt; refused.write(b"more").is_err());
    let mut files = HostFiles::new(rt);
    assert_eq!(rt;
        files.load(alloc, "written", 100)?.as_slice(),
        b"two words".as_slice()
    );
    Ok(())
}

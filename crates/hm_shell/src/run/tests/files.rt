// Runs over files: the volume, the script and the replies.

use super::*;
use hm_disk_forms::FileDisk;
use hm_pipe::{FileSink, FileSource};
use std::fs;

// Whether a run over the file of this name as a volume ends so.
fn ends_on_file<R: AllocGlobal + Threads + Wait + Sync>(
    rt: &R,
    files: HostRuntime,
    name: &str,
    newfs: Option<u32>,
    script: &str,
    status: u8,
    printed: &str,
) -> Result<bool, AllocError> {
    let alloc = rt.alloc();
    let words = owned(alloc, if newfs.is_some() { &MAKES } else { &["v"] })?;
    let devices = Devices {
        disk: FileDisk::named(files, String::from_str(alloc, name)?, newfs),
        script: MemSource::new(script.as_bytes().to_vec(alloc)?, Vec::new(alloc)),
        out: MemSink::new(alloc, Vec::new(alloc)),
        stream_in: FileSource::named(files, None),
        stream_out: FileSink::named(files, None),
    };
    let ended = run(rt, &words, devices, &NoGate);
    Ok(ended.status == status && ended.devices.out.bytes() == printed.as_bytes())
}

#[test]
fn a_volume_is_kept_in_a_file_or_is_a_fault_of_the_disk(rt: HostRuntime) -> Result<(), Fail> {
    let done = "0x0000000000000002 ok\n";
    assert!(rt; ends_on_file(&rt, rt, "volume", Some(24), "mkdir /a\n", 0, done)?);
    let listed = "0x0000000000000003 ok 1 d:a\n";
    assert!(rt; ends_on_file(&rt, rt, "volume", None, "ls /\n", 0, listed)?);
    fs::remove_file(&rt, "volume")?;
    // No file, a folder that is not there, no name, and a folder in place of a file.
    fs::create_dir(&rt, "volumes")?;
    for name in ["no_volume", "no/volume", "", "volumes"] {
        let is_so = ends_on_file(&rt, rt, name, None, "ls /\n", 4, "media 0 1\n")?;
        assert!(rt; is_so, "{name:?}");
    }
    fs::remove_dir(&rt, "volumes")?;
    Ok(())
}

// Whether a run over the file of this name as a script ends so.
fn ends_from_file<R: AllocGlobal + Threads + Wait + Sync>(
    rt: &R,
    files: HostRuntime,
    name: Option<&str>,
    status: u8,
    printed: &str,
) -> Result<bool, AllocError> {
    let alloc = rt.alloc();
    let name = match name {
        Some(name) => Some(String::from_str(alloc, name)?),
        None => None,
    };
    let devices = Devices {
        disk: blank(rt),
        script: FileSource::named(files, name),
        out: MemSink::new(alloc, Vec::new(alloc)),
        stream_in: FileSource::named(files, None),
        stream_out: FileSink::named(files, None),
    };
    let ended = run(rt, &owned(alloc, &MAKES)?, devices, &NoGate);
    Ok(ended.status == status && ended.devices.out.bytes() == printed.as_bytes())
}

#[test]
fn a_script_is_read_from_a_file_or_is_a_fault_of_the_source(rt: HostRuntime) -> Result<(), Fail> {
    fs::write(&rt, "script", b"mkdir /a\nls /\n")?;
    let printed = "0x0000000000000002 ok\n0x0000000000000003 ok 1 d:a\n";
    assert!(rt; ends_from_file(&rt, rt, Some("script"), 0, printed)?);
    fs::remove_file(&rt, "script")?;
    assert!(rt; ends_from_file(&rt, rt, None, 0, "")?);
    fs::create_dir(&rt, "scripts")?;
    for name in ["no_script", "no/script", "", "scripts"] {
        let is_so = ends_from_file(&rt, rt, Some(name), 5, "script fault 0 1\n")?;
        assert!(rt; is_so, "{name:?}");
    }
    fs::remove_dir(&rt, "scripts")?;
    Ok(())
}

// The status of a run that prints to the file of this name.
fn status_to_file<R: AllocGlobal + Threads + Wait + Sync>(
    rt: &R,
    files: HostRuntime,
    name: Option<&str>,
    script: &str,
) -> Result<u8, AllocError> {
    let alloc = rt.alloc();
    let name = match name {
        Some(name) => Some(String::from_str(alloc, name)?),
        None => None,
    };
    let devices = Devices {
        disk: blank(rt),
        script: MemSource::new(script.as_bytes().to_vec(alloc)?, Vec::new(alloc)),
        out: FileSink::named(files, name),
        stream_in: FileSource::named(files, None),
        stream_out: FileSink::named(files, None),
    };
    let ended = run(rt, &owned(alloc, &MAKES)?, devices, &NoGate);
    Ok(ended.status)
}

#[test]
fn replies_are_printed_to_a_file_or_are_a_fault_of_the_sink(rt: HostRuntime) -> Result<(), Fail> {
    fs::write(&rt, "printed", b"what was there before")?;
    assert_eq!(rt;
        status_to_file(&rt, rt, Some("printed"), "mkdir /a\nls /\n")?,
        0
    );
    let printed = fs::read(&rt, "printed")?;
    let want = b"0x0000000000000002 ok\n0x0000000000000003 ok 1 d:a\n".as_slice();
    assert_eq!(rt; printed.as_slice(), want);
    fs::remove_file(&rt, "printed")?;
    fs::create_dir(&rt, "prints")?;
    for name in [None, Some(""), Some("no/file"), Some("prints")] {
        assert_eq!(rt; status_to_file(&rt, rt, name, "mkdir /a\n")?, 6, "{name:?}");
        // Where nothing is printed nothing fails, and a last line that fails changes no status.
        assert_eq!(rt;
            status_to_file(&rt, rt, name, "# nothing\n")?,
            0,
            "{name:?}"
        );
        assert_eq!(rt; status_to_file(&rt, rt, name, "frob\n")?, 8, "{name:?}");
    }
    fs::remove_dir(&rt, "prints")?;
    Ok(())
}

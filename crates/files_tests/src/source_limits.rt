// Files and texts at their limits, and as many faults as there are.
use crate::asked_files::{answer_for_a, answer_for_bytes, answer_line};
use crate::comparing::{expect_text, same_for};
use rn_files::{MemoryFiles, ReadingFault, Sources};
use std::alloc::{AllocError, Global};

/// A file with so many includes of a file that isn't there.
fn missing_includes(alloc: Global, count: usize) -> Result<MemoryFiles, AllocError> {
    let text = "include 'no.rnc'\n".repeat(alloc, count)?;
    let mut files = MemoryFiles::new(alloc, "/w")?;
    files.add_file(alloc, "/w/a.rnc", text.as_bytes())?;
    Ok(files)
}

/// How many faults an answer has.
fn count_of_faults(answer: &Result<Sources, ReadingFault>) -> usize {
    match answer {
        Err(ReadingFault::Faults(reading)) => reading.faults.len(),
        _ => 0,
    }
}

#[test]
fn each_missing_file_is_a_fault(rt: HostRuntime) {
    let files = missing_includes(rt.alloc(), 10_000).expect(&rt, "no memory");
    let answer = answer_for_a(rt.alloc(), &files);
    assert_eq!(rt; count_of_faults(&answer), 10_000);
}

/// A file that includes so many others, and these.
fn included_files(alloc: Global, count: usize) -> Result<MemoryFiles, AllocError> {
    let mut files = MemoryFiles::new(alloc, "/w")?;
    let mut text = String::new(alloc);
    for number in 0..count {
        let path = format!(in alloc; "/w/{number}.rnc")?;
        files.add_file(alloc, path.as_str(), b"")?;
        write!(text, "include '{number}.rnc'\n")?;
    }
    files.add_file(alloc, "/w/a.rnc", text.as_bytes())?;
    Ok(files)
}

#[test]
fn the_most_files_are_read(rt: HostRuntime) {
    let files = included_files(rt.alloc(), 1_023).expect(&rt, "no memory");
    let sources = answer_for_a(rt.alloc(), &files).expect(&rt, "the files are refused");
    assert_eq!(rt; sources.files.len(), 1_024);
}

#[test]
fn one_file_more_is_refused(rt: HostRuntime) {
    let files = included_files(rt.alloc(), 1_024).expect(&rt, "no memory");
    let answer = answer_for_a(rt.alloc(), &files);
    let found = expect_text(&rt, answer_line(rt.alloc(), answer));
    // 1,023 includes stand before the one at fault: of each 15 bytes beside the digits of its number; and 8 stand before its literal
    let wanted = "Text { file: 0, at: 18335 } Count;";
    same_for(&rt, "1,025 files", found.as_str(), wanted);
}

/// A file that includes so many others, none of which is there.
fn absent_files(alloc: Global, count: usize) -> Result<MemoryFiles, AllocError> {
    let mut files = MemoryFiles::new(alloc, "/w")?;
    let mut text = String::new(alloc);
    for number in 0..count {
        write!(text, "include '{number}.rnc'\n")?;
    }
    files.add_file(alloc, "/w/a.rnc", text.as_bytes())?;
    Ok(files)
}

#[test]
fn so_many_files_are_looked_for(rt: HostRuntime) {
    let files = absent_files(rt.alloc(), 2_000).expect(&rt, "no memory");
    let answer = answer_for_a(rt.alloc(), &files);
    assert_eq!(rt; count_of_faults(&answer), 1_024);
}

#[test]
fn after_one_file_more_none_is_read(rt: HostRuntime) {
    let mut files = included_files(rt.alloc(), 1_024).expect(&rt, "no memory");
    let added = files.add_file(rt.alloc(), "/w/7.rnc", b"start = ^");
    added.expect(&rt, "no memory");
    let answer = answer_for_a(rt.alloc(), &files);
    assert_eq!(rt; count_of_faults(&answer), 1);
}

/// What is answered for a file of so many spaces.
fn answer_for_spaces(alloc: Global, count: usize) -> Result<String, AllocError> {
    let bytes = vec![in alloc; b' '; count]?;
    answer_for_bytes(alloc, bytes.as_slice())
}

#[test]
fn the_longest_text_is_read(rt: HostRuntime) {
    let found = expect_text(&rt, answer_for_spaces(rt.alloc(), 4_194_304));
    same_for(&rt, "4 MiB", found.as_str(), "a.rnc [] roots [0]");
}

#[test]
fn a_longer_text_is_refused(rt: HostRuntime) {
    let found = expect_text(&rt, answer_for_spaces(rt.alloc(), 4_194_305));
    same_for(&rt, "a byte more", found.as_str(), "Word(0) File(Large);");
}

#[test]
fn texts_that_are_not_utf8_are_refused(rt: HostRuntime) {
    let found = answer_for_bytes(rt.alloc(), b"# \xC3\xA9 \xFF");
    let found = expect_text(&rt, found);
    let wanted = "Text { file: 0, at: 5 } Encoding;";
    same_for(&rt, "not UTF-8", found.as_str(), wanted);
}

#[test]
fn texts_in_utf16_are_told(rt: HostRuntime) {
    let little = answer_for_bytes(rt.alloc(), b"\xFF\xFEs\x00");
    let little = expect_text(&rt, little);
    same_for(
        &rt,
        "little-endian",
        little.as_str(),
        "Text { file: 0, at: 0 } Utf16;",
    );
    let big = answer_for_bytes(rt.alloc(), b"\xFE\xFF\x00s");
    let big = expect_text(&rt, big);
    same_for(
        &rt,
        "big-endian",
        big.as_str(),
        "Text { file: 0, at: 0 } Utf16;",
    );
}

//! Small pieces, failing calls, limits and room, and the adapters over readers, writers and devices.

use crate::made::{Test, bytes, one, text};
use gq_base::List;
use gq_io::{
    Batch, Failed, Files, MemoryFiles, MemorySink, ReadFile, ReadStop, RealFiles, RealSink,
    RealSource, Sink, Source, SureFiles, SureSink, SureSource, read_chosen, write_all,
};

// No call has this number.
const NEVER: u64 = 1_000_000;

fn kind_of(answer: &Result<ReadFile, ReadStop>, text: &[u8]) -> &'static str {
    match answer {
        Ok(ReadFile::Whole(bytes)) if bytes.as_slice() == text => "whole",
        Ok(ReadFile::Whole(_)) => "other",
        Ok(ReadFile::TooLong) => "too long",
        Err(ReadStop::Failed) => "failed",
        Err(ReadStop::Memory) => "memory",
    }
}

// A sink in which the call with a number fails.
fn sink(rt: &impl Test, room: u32, piece: u32, failing: u64) -> MemorySink {
    assert!(rt; piece > 0);
    MemorySink::new(rt.alloc(), room, piece, one(rt, failing)).expect(rt, "memory")
}

fn put_all(out: &mut MemorySink, line: &[u8], count: u64) -> bool {
    let mut batch = Batch::new();
    for _ in 0..count {
        if batch.put(out, line).is_err() {
            return false;
        }
    }
    batch.flush(out).is_ok()
}

// Puts a line so often into a sink with room for 20,000 bytes that takes at most 1,500 of a write.
fn put_lines(rt: &impl Test, len: usize, count: u64, failing: u64) -> (bool, usize) {
    let line = vec![in rt.alloc(); b'a'; len].expect(rt, "memory");
    let mut out = sink(rt, 20_000, 1500, failing);
    let ok = put_all(&mut out, &line, count);
    (ok, out.taken().len())
}

// The length of a line and how often it is put, the call that fails, whether all are put and flushed, and how many bytes are
// taken.
const BATCHES: [(usize, u64, u64, bool, usize); 7] = [
    (1000, 9, NEVER, true, 9000),
    (4096, 3, NEVER, true, 12_288),
    (5000, 2, NEVER, true, 10_000),
    (0, 5, NEVER, true, 0),
    (1000, 9, 0, false, 0),
    (1000, 9, 2, false, 3000),
    (1000, 30, NEVER, false, 20_000),
];

#[test]
fn batches(rt: HostRuntime) {
    for (len, count, failing, ok, taken) in BATCHES.iter() {
        let got = put_lines(&rt, *len, *count, *failing);
        assert!(rt; got == (*ok, *taken), "{count} lines of {len}");
    }
}

fn is_written(out: &mut MemorySink) -> bool {
    write_all(out, b"ab").is_ok()
        && out.write(b"") == Ok(0)
        && out.write(b"c") == Err(Failed)
        && write_all(out, b"cdef") == Err(Failed)
        && out.taken() == b"abcde".as_slice()
}

#[test]
fn writes(rt: HostRuntime) {
    let mut out = sink(&rt, 5, 1, 2);
    assert!(rt; is_written(&mut out));
    assert!(rt; SureSink::new().write(b"abc") == Ok(3));
}

// A file of these bytes, where the call with a number fails; the choice of the file is call 0.
fn one_file(rt: &impl Test, content: &[u8], failing: u64) -> MemoryFiles {
    let names = one(rt, text(rt, "a"));
    let contents = one(rt, bytes(rt, content));
    MemoryFiles::new(names, contents, one(rt, failing))
}

fn read_a(rt: &impl Test, files: &mut MemoryFiles, content: &[u8], most: usize) -> &'static str {
    match files.select("a") {
        Ok(true) => kind_of(&read_chosen(rt.alloc(), files, most), content),
        _ => "not chosen",
    }
}

fn read_of(rt: &impl Test, content: &[u8], most: usize, failing: u64) -> &'static str {
    let mut files = one_file(rt, content, failing);
    read_a(rt, &mut files, content, most)
}

// The bytes of a file, the most that may be read, the call that fails, and what is read.
const READS: [(&str, usize, u64, &str); 6] = [
    ("", 0, NEVER, "whole"),
    ("abc", 3, NEVER, "whole"),
    ("abc", 2, NEVER, "too long"),
    ("abc", 9, 0, "not chosen"),
    ("abc", 9, 2, "failed"),
    ("abc", 9, 3, "whole"),
];

#[test]
fn reads(rt: HostRuntime) {
    for (content, most, failing, wanted) in READS.iter() {
        let got = read_of(&rt, content.as_bytes(), *most, *failing);
        assert!(rt; got == *wanted, "{content:?}");
    }
    let long = vec![in rt.alloc(); b'x'; 200_000].expect(&rt, "memory");
    assert!(rt; read_of(&rt, &long, 200_000, NEVER) == "whole");
    assert!(rt; read_of(&rt, &long, 199_999, NEVER) == "too long");
}

fn is_read_in_pieces(input: &mut SureSource) -> bool {
    let mut into = [0; 4];
    input.read(&mut into) == Ok(2)
        && input.read(&mut into[2..]) == Ok(1)
        && input.read(&mut into[3..]) == Ok(0)
        && into == *b"abc\0"
}

#[test]
fn reads_in_pieces(rt: HostRuntime) {
    let mut input = SureSource::new(bytes(&rt, b"abc"), 2);
    assert!(rt; is_read_in_pieces(&mut input));
}

// Two files, of which the second is empty, where the call with a number fails.
fn two_files(rt: &impl Test, failing: u64) -> MemoryFiles {
    let mut names = one(rt, text(rt, "a"));
    names.push(text(rt, "b")).expect(rt, "memory");
    let mut contents = one(rt, bytes(rt, b"one"));
    contents.push(bytes(rt, b"")).expect(rt, "memory");
    MemoryFiles::new(names, contents, one(rt, failing))
}

fn is_whole(rt: &impl Test, files: &mut MemoryFiles, content: &[u8]) -> bool {
    kind_of(&read_chosen(rt.alloc(), files, content.len()), content) == "whole"
}

#[test]
fn chooses(rt: HostRuntime) {
    let mut files = two_files(&rt, 4);
    assert!(rt; files.select("c") == Ok(false) && files.select("a") == Ok(true));
    assert!(rt; is_whole(&rt, &mut files, b"one"));
    assert!(rt; files.select("b") == Err(Failed) && files.select("b") == Ok(true));
    assert!(rt; is_whole(&rt, &mut files, b""));
}

// Nothing is read before a file is chosen, and then two bytes at once.
fn is_chosen_and_read(files: &mut SureFiles) -> bool {
    let mut into = [0; 2];
    files.read(&mut into) == Ok(0)
        && files.select("a") == Ok(true)
        && files.read(&mut into) == Ok(2)
        && into == *b"on"
}

#[test]
fn chooses_surely(rt: HostRuntime) {
    let mut files = SureFiles::new(one(&rt, text(&rt, "a")), one(&rt, bytes(&rt, b"one")));
    assert!(rt; is_chosen_and_read(&mut files));
}

fn is_read_through_std() -> bool {
    let mut input = RealSource::new(b"abc".as_slice());
    let mut into = [0; 4];
    input.read(&mut into) == Ok(3) && input.read(&mut into[3..]) == Ok(0) && into == *b"abc\0"
}

// Of two writes the second goes past the end.
fn is_written_through_std(buffer: &mut [u8]) -> bool {
    let mut out = RealSink::new(buffer);
    write_all(&mut out, b"abc") == Ok(()) && write_all(&mut out, b"de") == Err(Failed)
}

#[test]
fn reads_and_writes_through_std(rt: HostRuntime) {
    assert!(rt; is_read_through_std());
    let mut buffer = [0; 4];
    assert!(rt; is_written_through_std(&mut buffer) && buffer == *b"abcd");
}

// A name that is not there, a directory, which opens and cannot be read, and a device of zeros without an end: whether each
// is there, and how much of it is read at once. No file that a tool can replace is asked for.
#[test]
fn opens_the_system_s_files(rt: HostRuntime) {
    let mut files = RealFiles::new(&rt);
    assert!(rt; files.read(&mut [7; 2]) == Ok(0));
    assert!(rt; is_read(&mut files, "/no such name", false, Ok(0)));
    assert!(rt; is_read(&mut files, "/", true, Err(Failed)));
    assert!(rt; is_read(&mut files, "/dev/zero", true, Ok(2)));
}

fn is_read<F: Files>(files: &mut F, name: &str, found: bool, count: Result<usize, Failed>) -> bool {
    let mut into = [7; 2];
    files.select(name) == Ok(found)
        && files.read(&mut into) == count
        && (count != Ok(2) || into == [0, 0])
}

//! The work of the program: its exit statuses, and readers and writers that fail.

use crate::tests::{parts_of, same, same_at};
use determinize_replay::run::{report, run};
use example_walks::error::{ReadError, ReplayError, TextError};
use example_walks::rows::run_rows;
use std::alloc::AllocError;
use std::io;
use std::io::{Read, Write};
use std::process::Abort;

/// A reader of a text that fails after it.
#[derive(Drop)]
struct Broken<'t> {
    /// The part of the text that is left.
    left: &'t [u8],
}

impl Read for Broken<'_> {
    fn read(&mut self, buf: &mut [u8]) -> io::Result<usize> {
        if self.left.is_empty() {
            return Err(io::Error::from(io::ErrorKind::BrokenPipe));
        }
        self.left.read(buf)
    }
}

/// A writer that fails after a number of writes.
#[derive(Drop)]
pub struct Failing {
    /// The number of writes left.
    pub left: u32,
}

impl Write for Failing {
    fn write(&mut self, buf: &[u8]) -> io::Result<usize> {
        if self.left == 0 {
            return Err(io::Error::from(io::ErrorKind::BrokenPipe));
        }
        self.left -= 1;
        Ok(buf.len())
    }

    fn flush(&mut self) -> io::Result<()> {
        Ok(())
    }
}

/// Returns arguments, one per line of the text.
pub fn words<R: Abort + AllocGlobal>(rt: &R, lines: &str) -> Vec<String> {
    let mut words = Vec::new(rt.alloc());
    for word in lines.lines() {
        let word = String::from_str(rt.alloc(), word).expect(rt, "memory");
        words.push(word).expect(rt, "memory");
    }
    words
}

/// Runs the program with arguments, one per line, over an input, and compares the status and all
/// output.
pub fn expect<R: Abort + AllocGlobal, I: Read + Drop>(
    rt: &R,
    arguments: &str,
    input: I,
    status: u8,
    out_text: &str,
    err_text: &str,
) {
    let words = words(rt, arguments);
    let mut out = Vec::new(rt.alloc());
    let mut err = Vec::new(rt.alloc());
    let found = run(rt.alloc(), words.as_slice(), input, &mut out, &mut err);
    let found = (err.as_slice(), out.as_slice(), found);
    let wanted = (err_text.as_bytes(), out_text.as_bytes(), status);
    same_at(rt, arguments, found, wanted);
}

/// A job with its right output.
const DEAD: &str = "> dead\n000000000000000000\n";

/// A job with a wrong output, and one with its right output.
const WRONG_FIRST: &str = "> fromusize n=6\nsome LineLF\n> dead\n000000000000000000\n";

/// A walk, one with a wrong output, the first again, one of another match kind with a look-ahead
/// byte, and a job that is no walk.
const JOBS: &str = "\
> walk text=61 | B:61>1 M:0
00000000000000000000
00000000000000000002
010000000000000000
match 0 1
> walk text=- | M:0
none
> walk text=61 | B:61>1 M:0
00000000000000000000
00000000000000000002
010000000000000000
match 0 1
> walk kind=leftmost-first text=61 after=61 | B:61>1 M:0
00000000000000000000
00000000000000000002
010000000000000000
match 0 1
> dead
000000000000000000
";

/// The output of the program for these jobs, with and without caches.
const VERDICT: &str = "\
> walk text=- | M:0
expected:
none
got:
00000000000000000000
010000000000000000
match 0 0
5 jobs, 1 differ, 0 skipped
";

/// The output of the program for these jobs with searches.
const SEARCHED: &str = "\
> walk text=- | M:0
expected:
none
got:
match 0 0
5 jobs, 1 differ, 0 skipped
";

/// Wrong outputs: another line, no line, a line too many, an empty line, and one after a right
/// output.
const WRONG: &str = "\
> dead
000000000000000001
> dead
> fromusize n=6
none
none
> fromusize n=6

> readers after=62 at=1 | M:0
match=1 len=1 pids=0 usage=9
fw=0 half=0 have=- need=-
ids=-
> fromusize n=0
none
";

/// The output of the program for these jobs.
const DIFFERENCES: &str = "\
> dead
expected:
000000000000000001
got:
000000000000000000
> dead
expected:
got:
000000000000000000
> fromusize n=6
expected:
none
none
got:
none
> fromusize n=6
expected:

got:
none
> fromusize n=0
expected:
none
got:
some NonWordByte
6 jobs, 5 differ, 0 skipped
";

/// The message for invalid arguments.
const NOT_TAKEN: &str = "arguments are not taken\n";

/// Runs of the program, each after a line `==`, in parts that end in `--`: the status and then the
/// arguments, a line each; the input; the output; the errors. Jobs that agree, some that differ, no
/// job, an invalid job; a search; invalid jobs before walks through caches.
const RUNS: &str = "\
0
--
> dead
000000000000000000
--
1 jobs, 0 differ, 0 skipped
--
==
0
--
# without an end of its line
> fromusize n=6
none--
1 jobs, 0 differ, 0 skipped
--
==
0
--
> walk text=61 | B:61>1 M:0
00000000000000000000
# a comment is no line of an answer
00000000000000000002
010000000000000000
match 0 1
--
1 jobs, 0 differ, 0 skipped
--
==
0
--
> walk after=62 | M:0
00000000000000000000
010000000000000000
match 0 0
> size states=3 matches=2
states 3
--
2 jobs, 0 differ, 0 skipped
--
==
1
--
> dead
000000000000000000
> fromusize n=6
some LineLF
--
> fromusize n=6
expected:
some LineLF
got:
none
2 jobs, 1 differ, 0 skipped
--
==
2
--
--
0 jobs, 0 differ, 0 skipped
--
no job was replayed
==
2
--
# first
none
--
--
line 2: an answer without a job
==
2
--
# none
--
0 jobs, 0 differ, 0 skipped
--
no job was replayed
==
2
--
# line 1
> dead
000000000000000000
> sleep
none
> dead
--
--
line 4: unknown verb \"sleep\"
==
0
search
3
--
> walk text=- | M:0
anything
match 0 0
--
1 jobs, 0 differ, 0 skipped
--
==
2
cache
3
--
> walk start=2 | M:0
none
--
--
line 1: not the id of a state of the NFA
==
2
cache
3
--
#\x20
> walk | X:0
none
--
--
line 2: not an NFA state
";

/// Makes one of these runs.
fn expect_run<R: Abort + AllocGlobal>(rt: &R, run: &str) {
    let (head, parts) = parts_of(run, "--\n");
    let (status, arguments) = parts_of(head, "\n");
    let (input, told) = parts_of(parts, "--\n");
    let (out_text, err_text) = parts_of(told, "--\n");
    let status = status.parse::<u8>().expect(rt, "a status");
    expect(rt, arguments, input.as_bytes(), status, out_text, err_text);
}

#[test]
fn inputs(rt: HostRuntime) {
    for run in RUNS.split("==\n") {
        expect_run(&rt, run);
    }
    expect(&rt, "", WRONG.as_bytes(), 1, DIFFERENCES, "");
}

/// Walks through caches of several limits, and searches.
#[test]
fn walks_of_jobs(rt: HostRuntime) {
    for arguments in ["", "cache\n0", "cache\n1", "cache\n2", "cache\n64"] {
        expect(&rt, arguments, JOBS.as_bytes(), 1, VERDICT, "");
    }
    for arguments in ["search\n0", "search\n64"] {
        expect(&rt, arguments, JOBS.as_bytes(), 1, SEARCHED, "");
    }
}

/// Inputs whose first line is no comment and no job, each up to a bar.
const NO_JOB: &str = "none\n> dead\n|\n> dead\n|dead\n|>dead\n";

/// Invalid arguments, one per line, each list up to a bar.
const OTHER_ARGUMENTS: &str = "stdin|--help|\n|cache|cache\nx|cache\n1\n2|search|find\n1";

#[test]
fn inputs_without_a_job(rt: HostRuntime) {
    for input in NO_JOB.split('|') {
        let said = "line 1: an answer without a job\n";
        expect(&rt, "", input.as_bytes(), 2, "", said);
    }
}

#[test]
fn arguments_that_are_rejected(rt: HostRuntime) {
    for arguments in OTHER_ARGUMENTS.split('|') {
        expect(&rt, arguments, DEAD.as_bytes(), 2, "", NOT_TAKEN);
    }
}

#[test]
fn lines_that_cannot_be_read(rt: HostRuntime) {
    let text = b"> dead\n\xff\n".as_slice();
    expect(&rt, "", text, 2, "", "line 2: can't be read\n");
    let at_once = Broken { left: b"" };
    expect(&rt, "", at_once, 2, "", "line 1: can't be read\n");
    let later = Broken {
        left: b"> fromusize n=6\nsome LineLF\n> dead\n00",
    };
    expect(
        &rt,
        "",
        later,
        2,
        "> fromusize n=6\nexpected:\nsome LineLF\ngot:\nnone\n",
        "line 4: can't be read\n",
    );
}

#[test]
fn output_that_fails(rt: HostRuntime) {
    for left in [0u32, 1, 2, 3, 4, 5, 6, 7, 1000] {
        let (mut out, mut err) = (Failing { left }, Vec::new(rt.alloc()));
        let found = run(rt.alloc(), &[], WRONG_FIRST.as_bytes(), &mut out, &mut err);
        let (status, told) = match left {
            1000 => (1, ""),
            _ => (2, "the output can't be written\n"),
        };
        same_at(
            &rt,
            left,
            (found, err.as_slice()),
            (status, told.as_bytes()),
        );
    }
}

/// Both programs keep their status if the error can't be written. `rows` is given a word that names
/// no example.
#[test]
fn keeps_its_status_where_errors_fail(rt: HostRuntime) {
    let words = words(&rt, "none");
    let mut out = Vec::new(rt.alloc());
    let mut err = Failing { left: 0 };
    let of_jobs = run(rt.alloc(), &[], b"none\n".as_slice(), &mut out, &mut err);
    let of_rows = run_rows(rt.alloc(), words.as_slice(), &mut out, &mut err);
    same(&rt, (of_jobs, of_rows, out.as_slice()), (2, 2, b""));
}

#[test]
fn tells_of_each_error(rt: HostRuntime) {
    let memory = io::Error::from(io::ErrorKind::OutOfMemory);
    let other = io::Error::from(io::ErrorKind::InvalidData);
    let of_job = ReadError::from(TextError::from(AllocError));
    for (error, told) in [
        (ReplayError::from(AllocError), "out of memory\n"),
        (ReplayError::Arguments.because(&memory), "out of memory\n"),
        (ReplayError::of_line(3, of_job), "out of memory\n"),
        (ReplayError::Arguments.because(&other), NOT_TAKEN),
    ] {
        let mut err = Vec::new(rt.alloc());
        let status = report(Err(error), &mut err);
        same(&rt, (status, err.as_slice()), (2, told.as_bytes()));
    }
}

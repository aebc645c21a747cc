// Reads a session from standard input and writes its log to standard output: the lines of all fields that were
// read whole are written before more is read. Where the log ended before the input did, a line on standard error says
// where and why.
#![tactic(auto)]

ghost use Rattle.std.specs.Prelude.{◌≡◌, ◌++◌, ◌+◌, ◌≤◌, length, take, drop, is_some, not, true, false, None, OnOk, ◌==◌};
ghost use Rattle.std.specs.Result.{result_err};
ghost use Rattle.std.specs.Io.KnownBytes.{Appends};
ghost use Rattle.session_log.specs.Logs.{Draws, Writes, LogsAll, TurnsUsed};
ghost use Rattle.session_log.specs.Turns.{Within, Journal, Lines, TakesFields, counted, is_failed, ReadsMore, Turned, ending_of};

use arrayvec::ArrayString;
use buffer_opening::internal::open_in;
use endings::internal::put_ending;
use endings::left_at;
use journal::internal::{run_in, standing_at_start};
use std::fmt::Write as _;
use std::io;
use std::io::{ErrorKind, Read, Write};
use std::process::ExitCode;
use steps::Standing;

// Where the program stands: whether there is more to do, whether it reads next or takes fields, and the error of a read
// or a write that failed; how many bytes of the session stood before the buffer; the index at which the last run began,
// and the indices between which the bytes wait that were read and not yet taken; the length of the last run's lines; the
// standing of the log, whose codes and words stand in arrays that the turns change in place.
#[derive(Clone, Copy)]
struct Turn {
    more: bool,
    reads: bool,
    failed: Option<io::Error>,
    before: u64,
    last: usize,
    from: usize,
    to: usize,
    length: usize,
    standing: Standing,
}

// Hands all bytes that wait to a run. It reads next where the run gave no line: then no whole field waits.
fn take_fields(
    t: Turn,
    codes: &mut [u32],
    words: &mut [u64],
    input: &[u8],
    lines: &mut [u8],
) -> Turn
    requires { Within t input.now × Journal t codes.old words.old × (23040 ≤ length lines.old) }
    ensures turn { TakesFields t codes.old words.old input.now lines.old result codes.new words.new lines.new }
    ensures more { result.more ≡ not result.standing.ended }
    ensures reads { result.reads ≡ (result.length == 0) }
{
    let standing = t.standing;
    let before = t.before;
    let from = t.from;
    let to = t.to;
    let logged = run_in(standing, codes, words, &input[from..to], lines);
    let next = logged.standing;
    Turn {
        more: !next.ended,
        reads: logged.length == 0,
        failed: None,
        before,
        last: from,
        from: from + logged.used,
        to,
        length: logged.length,
        standing: next,
    }
}

// Writes the lines of the fields that were taken between two turns. It asks for the turns, the codes and words before
// and after, and the input, and uses none of them, so that its contract can say which lines they are.
fn write_lines<W: Write>(
    writer: &mut W,
    t: Turn,
    codes: [u32; 65],
    words: [u64; 1560],
    next: Turn,
    next_codes: &[u32],
    next_words: &[u64],
    input: &[u8],
    lines: &[u8],
) -> io::Result<()>
    requires { Lines t codes words next next_codes.now next_words.now input.now lines.now }
    ensures { OnOk result (Appends (W.contents writer.old) (W.contents writer.new) lines.now) }
{
    writer.write_all(lines)
}

// Takes the fields that wait and writes their lines; after lines that cannot be written there is no more to do. The
// codes and words before are copied for the contract of the write only, and the compiler leaves the copies out.
fn log_fields<W: Write>(
    writer: &mut W,
    t: Turn,
    codes: &mut [u32; 65],
    words: &mut [u64; 1560],
    input: &[u8],
    lines: &mut [u8],
) -> Turn
    requires { Within t input.now × Journal t codes.old words.old × (23040 ≤ length lines.old) }
    ensures turn { TakesFields t codes.old words.old input.now lines.old result codes.new words.new lines.new }
    ensures writes { Writes (W.contents writer.old) (W.contents writer.new) result lines.new }
{
    let codes_before = *codes;
    let words_before = *words;
    let mut next = take_fields(t, codes, words, input, lines);
    let n = next.length;
    let written = write_lines(
        writer,
        t,
        codes_before,
        words_before,
        next,
        codes,
        words,
        input,
        &lines[0..n],
    );
    next.more = written.is_ok() & next.more;
    next.failed = written.err();
    next
}

// Moves so many bytes from an index to the start; the bytes past them stay.
fn move_to_start(input: &mut [u8], from: usize, n: usize)
    requires { from + n ≤ length input.old }
    ensures { input.new ≡ take n (drop from input.old) ++ drop n input.old }
{
    input.copy_within(from..from + n, 0);
}

// The error of a read that failed.
fn read_failed(answer: io::Result<usize>) -> Option<io::Error>
    ensures whether { is_some result ≡ is_failed answer }
    ensures why { result ≡ result_err answer }
{
    answer.err()
}

// A number counted up; a sum that does not fit stays the largest number.
fn count_up(n: u64, more: usize) -> u64
    ensures { result ≡ counted n more }
{
    n.saturating_add(more as u64)
}

// Moves what waits to the start and reads once behind it; input that ends, or cannot be read, is the end.
fn read_more<R: Read>(reader: &mut R, t: Turn, input: &mut [u8]) -> Turn
    requires { Within t input.old }
    ensures turn { ReadsMore t input.old result input.new }
    ensures draws { Draws (R.remaining reader.old) (R.remaining reader.new) t input.old result input.new }
{
    let left = t.to - t.from;
    move_to_start(input, t.from, left);
    let end = input.len();
    let answer = reader.read(&mut input[left..end]);
    let failed = read_failed(answer);
    let n = answer.unwrap_or(0);
    let before = count_up(t.before, t.from);
    let standing = t.standing;
    Turn {
        more: 0 < n,
        reads: false,
        failed,
        before,
        last: 0,
        from: 0,
        to: left + n,
        length: 0,
        standing,
    }
}

// Reads, or takes the fields that wait.
fn next_turn<R: Read, W: Write>(
    reader: &mut R,
    writer: &mut W,
    t: Turn,
    codes: &mut [u32; 65],
    words: &mut [u64; 1560],
    input: &mut [u8],
    lines: &mut [u8],
) -> Turn
    requires { Within t input.old × Journal t codes.old words.old × (23040 ≤ length lines.old) }
    ensures turn { Turned t codes.old words.old input.old lines.old result codes.new words.new input.new lines.new }
    ensures draws { t.reads ≡ true → Draws (R.remaining reader.old) (R.remaining reader.new) t input.old result input.new × (writer.new ≡ writer.old) }
    ensures writes { t.reads ≡ false → Writes (W.contents writer.old) (W.contents writer.new) result lines.new × (reader.new ≡ reader.old) }
{
    if t.reads {
        read_more(reader, t, input)
    } else {
        log_fields(writer, t, codes, words, input, lines)
    }
}

// Writes the line that says where the log ended and why. It asks for the turn and the input, and uses neither, so that
// its contract can say which line it is.
fn write_ending<E: Write>(errors: &mut E, t: Turn, input: &[u8], line: &[u8])
    requires { line.now ≡ ending_of t input.now }
{
    let _ = errors.write_all(line);
}

// The text of an error without the number that std writes behind it.
fn words_of(text: &str) -> &str {
    match text.split_once(" (os error ") {
        Some((words, _)) => words,
        None => text,
    }
}

// Says which error came, in the system's words. Where nobody reads the log any more nothing is left to say.
fn tell_failure<E: Write>(errors: &mut E, error: io::Error) {
    if error.kind() == ErrorKind::BrokenPipe {
        return;
    }
    let mut text = ArrayString::<160>::new();
    let _ = write!(text, "{error}");
    let words = words_of(text.as_str());
    let _ = writeln!(errors, "session_log: {words}");
}

// Says where the log ended and why, where something is left of what the last run was handed; where a read or a write
// failed, it says that.
fn tell_ending<E: Write>(errors: &mut E, t: Turn, input: &[u8])
    requires { Within t input.now }
{
    if let Some(error) = t.failed {
        tell_failure(errors, error);
        return;
    }
    let last = t.last;
    let to = t.to;
    let handed = &input[last..to];
    let at = left_at(handed);
    if at == handed.len() {
        return;
    }
    let offset = count_up(count_up(t.before, last), at);
    let mut line = [0u8; 128];
    let n = put_ending(&mut line, offset, &handed[at..handed.len()]);
    write_ending(errors, t, input, &line[0..n]);
}

// The status with which the program ends. A pipe that nobody reads gives that of the signal which ends a program there.
fn status_of(failed: Option<io::Error>) -> ExitCode {
    match failed {
        Some(error) if error.kind() == ErrorKind::BrokenPipe => ExitCode::from(141),
        _ => ExitCode::SUCCESS,
    }
}

// A proved loop has to end, and nothing says that an input does: so the turns are as many as a number that no run uses up.
// Where a reader and a writer say which bytes they have, what is written is the log of all that is read.
fn log_all<R: Read, W: Write>(
    reader: &mut R,
    writer: &mut W,
    input: &mut [u8],
    lines: &mut [u8],
) -> Turn
    requires { 23040 ≤ length lines.old }
    ensures within { Within result input.new }
    ensures turns { result.more ≡ true → TurnsUsed (R.remaining reader.old) (R.remaining reader.new) (W.contents writer.old) (W.contents writer.new) }
    ensures logs { result.more ≡ false → result.failed ≡ None → LogsAll (R.remaining reader.old) (R.remaining reader.new) (W.contents writer.old) (W.contents writer.new) result input.new }
{
    let mut codes = [0u32; 65];
    let mut words = [0u64; 1560];
    // Refused, and changes nothing: with a second caller the opening stays a call, and a turn small enough for the compiler to join it with its caller.
    let _ = open_in(&mut words, b"", &codes[0..0], &[0u64; 0]);
    let mut now = Turn {
        more: true,
        reads: true,
        failed: None,
        before: 0,
        last: 0,
        from: 0,
        to: 0,
        length: 0,
        standing: standing_at_start(),
    };
    for _ in 0..u64::MAX {
        if !now.more {
            break;
        }
        now = next_turn(reader, writer, now, &mut codes, &mut words, input, lines);
    }
    now
}

// 131,072 zeros: room for any field, and for many of the usual ones.
fn input_buffer() -> [u8; 131072]
    ensures { 131072 ≡ length result }
{
    [0; 131072]
}

// 65,536 zeros: room for the lines of many fields.
fn line_buffer() -> [u8; 65536]
    ensures { 65536 ≡ length result }
{
    [0; 65536]
}

fn main(rt: HostRuntime) -> ExitCode {
    let mut input = input_buffer();
    let mut lines = line_buffer();
    let last = log_all(&mut rt.stdin(), &mut rt.stdout(), &mut input, &mut lines);
    tell_ending(&mut rt.stderr(), last, &input);
    status_of(last.failed)
}

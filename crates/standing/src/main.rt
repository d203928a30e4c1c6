// Prints the standing of the accounts of a book, which comes from standard input: a heading and a line for each account, or one line
// that says by which number the book is refused.
#![tactic(auto)]

ghost use Rattle.std.specs.Prelude.{◌≡◌, OnOk, IfErr, IfSome, length, take};
ghost use Rattle.std.specs.Counts.{IsPrefixLen};
ghost use Rattle.std.specs.Io.KnownBytes.{Appends, Consumes};
ghost use Rattle.report.specs.Report.{input_text};
ghost use Rattle.standing.specs.Program.{AfterFailure, HoldsText};

use report::{LONGEST_INPUT, ROOM, report_input};
use std::io::{Read, Write};
use std::process::ExitCode;
use std::{fmt, io};

// Reads until the memory is full, the input ends or a read fails: how many bytes stand at the start of the memory then,
// and whether none failed. A loop, and not the library's read_exact or read_to_end: after a failure they leave open what was read.
fn read<R: Read>(input: &mut R, memory: &mut [u8]) -> (usize, io::Result<()>)
    ensures bound { IsPrefixLen result.0 memory.new }
    ensures bytes { Consumes (R.remaining input.old) (R.remaining input.new) (take result.0 memory.new) }
    ensures whole { OnOk result.1 (IfSome (R.remaining input.old)
        (λ xs. take result.0 memory.new ≡ take (length memory.old) xs)) }
{
    let mut done = 0;
    while done < memory.len() {
        match input.read(&mut memory[done..]) {
            Ok(0) => break,
            Ok(got) => done += got,
            Err(e) => return (done, Err(e)),
        }
    }
    (done, Ok(()))
}

// The text for what was read, in memory with room for every text, and how many bytes it takes.
fn put_text(book: &[u8], out: &mut [u8; ROOM]) -> usize
    ensures { HoldsText book.now out.old out.new result }
{
    report_input(book, out).unwrap()
}

// Hands a text to the output: nothing but the whole text for what was read, which the contract alone looks at.
fn write<W: Write>(output: &mut W, book: &[u8], text: &[u8]) -> io::Result<()>
    requires { text.now ≡ input_text book.now }
    ensures { OnOk result (Appends (W.contents output.old) (W.contents output.new) (input_text book.now)) }
{
    output.write_all(text)
}

// What the system would not do.
#[derive(Drop)]
enum Failed {
    Reading,
    Writing,
}

// By hand: a derive of it would be of one more library to trust.
impl fmt::Display for Failed {
    fn fmt<W: fmt::Write>(&self, f: &mut fmt::Formatter<W>) -> fmt::Result {
        f.write_str(match self {
            Failed::Reading => "can't read all of standard input",
            Failed::Writing => "can't write all to standard output",
        })
    }
}

// The whole work, from any input to any output: what is written is the text for all that the input had, and no other
// byte. Nothing is on the heap: one byte more is read than the program takes for a book, so that a longer file is seen. Where a read fails, the text is that
// for what came before it, and the failure is told afterwards. It leaves by let .. else: behind map_err(..)? what the
// read promised is not at hand.
fn answer<R: Read, W: Write>(input: &mut R, output: &mut W) -> Result<(), Failed>
    ensures whole { OnOk result (IfSome (R.remaining input.old)
        (λ xs. Appends (W.contents output.old) (W.contents output.new) (input_text xs))) }
    ensures failed { IfErr result (λ e. AfterFailure e (R.remaining input.old) (R.remaining input.new) (W.contents output.old) (W.contents output.new)) }
{
    let mut book = [0u8; LONGEST_INPUT + 1];
    let mut out = [0u8; ROOM];
    let (n, all_read) = read(input, &mut book);
    let length = put_text(&book[..n], &mut out);
    let Ok(()) = write(output, &book[..n], &out[..length]) else {
        return Err(Failed::Writing);
    };
    let Ok(()) = all_read else {
        return Err(Failed::Reading);
    };
    Ok(())
}

// What went wrong is said on standard error, and by the exit status.
fn main(rt: HostRuntime) -> ExitCode {
    let Err(e) = answer(&mut rt.stdin(), &mut rt.stdout()) else {
        return ExitCode::SUCCESS;
    };
    // Where standard error takes nothing either, the status is left.
    let _ = eprintln!(rt; "standing: {e}");
    ExitCode::FAILURE
}

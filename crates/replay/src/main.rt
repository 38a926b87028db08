// Document 01's replay program: the request file on standard input, its lines on standard output. What goes wrong with either is told on standard
// error, and then there is no `held` line, since a file that was not read to its end has none.
#![tactic(auto)]

ghost use Rattle.std.specs.Prelude.{◌≡◌, ◌↔◌, ◌≤◌, length, take, IfOk, IfErr, OnErr, IsErr, IsErrOf};
ghost use Rattle.std.specs.Io.{ReadsAtMost};
ghost use Rattle.std.specs.IoError.{error_kind};
ghost use Rattle.relay.specs.Passing.{is_over};
ghost use Rattle.relay.specs.View.{Fits, GoesOn, Stopped};

use relay::{Failure, Next, Relay};
use std::io;
use std::io::{ErrorKind, Read, Write};
use std::process::ExitCode;

// What the library is handed of an answer: how many bytes the call moved, or why it failed. std hands an interruption on, and does not call again by itself.
fn outcome_of(answer: &io::Result<usize>) -> Result<usize, Failure>
    ensures ok { IfOk answer.now (λ n. result ≡ Ok n) }
    ensures err { OnErr answer.now (IsErr result) }
    ensures interrupted { IfErr answer.now (λ e. IsErrOf result Failure.Interrupted ↔ (error_kind e ≡ ErrorKind.Interrupted)) }
{
    match answer {
        Ok(n) => Ok(*n),
        Err(e) if e.kind() == ErrorKind::Interrupted => Err(Failure::Interrupted),
        Err(_) => Err(Failure::Other),
    }
}

// Reads into the input past the bytes in hand.
fn read_past<R: Read>(input: &mut [u8], filled: usize, reader: &mut R) -> io::Result<usize>
    requires { filled ≤ length input.old }
    ensures kept { take filled input.new ≡ take filled input.old }
    ensures bound { ReadsAtMost result input.new }
{
    reader.read(&mut input[filled..])
}

// Makes the call that is asked for, and hands its answer on. Between two calls the library decides, and is proved. The answer is kept, since it says why a call
// failed; it is no part of the relay, which is copied, as an error can't be.
fn turn<R: Read, W: Write>(
    relay: Relay,
    lent: &mut [u8],
    input: &mut [u8],
    output: &mut [u8],
    reader: &mut R,
    writer: &mut W,
    answer: &mut io::Result<usize>,
) -> Relay
    requires { Fits relay (length input.old) (length output.old) }
    ensures { Fits result (length input.new) (length output.new) × GoesOn relay lent.old input.old output.old result lent.new input.new output.new }
{
    match relay.next {
        Next::Feed => relay.feed_on(lent, input, output),
        Next::Read => {
            *answer = read_past(input, relay.filled, reader);
            relay.after_read(outcome_of(answer), input, output)
        }
        Next::Write => {
            *answer = writer.write(&output[relay.from..relay.to]);
            relay.after_write(outcome_of(answer), input, output)
        }
        Next::Done | Next::ReadFailed | Next::WriteFailed | Next::TooLong => relay,
    }
}

#[tactic(auto, unfolding(relay::specs::Passing::is_over))]
fn is_over(next: Next) -> bool
    ensures { result ≡ is_over next }
{
    matches!(
        next,
        Next::Done | Next::ReadFailed | Next::WriteFailed | Next::TooLong
    )
}

// Where it stopped; the theorem over every passage asks for these lengths. A proved loop has to end, and nothing says that the input does, so that the turns
// are counted up to a number that no run reaches.
fn replay<R: Read, W: Write>(
    lent: &mut [u8],
    input: &mut [u8],
    output: &mut [u8],
    reader: &mut R,
    writer: &mut W,
    answer: &mut io::Result<usize>,
) -> Relay
    requires { (65536 ≤ length lent.old) × (128 ≤ length output.old) }
    ensures { Stopped lent.old result lent.new input.new output.new }
{
    let mut relay = Relay::begin();
    for _ in 0..u64::MAX {
        relay = turn(relay, lent, input, output, reader, writer, answer);
        if is_over(relay.next) {
            return relay;
        }
    }
    relay
}

// Why the call failed. A write that takes nothing gives no error of its own.
fn error_of(answer: io::Result<usize>) -> io::Error
    ensures { IfErr answer (λ e. result ≡ e) }
{
    match answer {
        Ok(_) => io::Error::from(ErrorKind::WriteZero),
        Err(e) => e,
    }
}

// No Display: a word for each end, to standard error.
fn tell_too_long(rt: &impl Eprint) -> io::Result<()> {
    eprintln!(rt; "replay: standard input is too long")
}

// What went wrong is told. A replay that is not over has used up its turns.
fn tell(rt: &impl Eprint, next: Next, answer: io::Result<usize>) -> io::Result<ExitCode> {
    match next {
        Next::Feed | Next::Read | Next::Write | Next::TooLong => tell_too_long(rt)?,
        Next::Done => return Ok(ExitCode::SUCCESS),
        Next::ReadFailed => {
            let error = error_of(answer);
            eprintln!(rt; "replay: reading standard input: {error}")?;
        }
        Next::WriteFailed => {
            let error = error_of(answer);
            eprintln!(rt; "replay: writing standard output: {error}")?;
        }
    }
    Ok(ExitCode::FAILURE)
}

// Room for three of the longest records, which have 65,537 bytes, so that there is always much to read into.
const INPUT: usize = 262144;

fn main(rt: HostRuntime) -> io::Result<ExitCode> {
    let mut lent = [0u8; 65536];
    let mut input = [0u8; INPUT];
    let mut output = [0u8; 65536];
    let mut answer = Ok(0);
    let relay = replay(
        &mut lent,
        &mut input,
        &mut output,
        &mut rt.stdin(),
        &mut rt.stdout(),
        &mut answer,
    );
    tell(&rt, relay.next, answer)
}

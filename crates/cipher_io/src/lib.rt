// The cipher program, from standard input to standard output: it reads and writes; what it must write is said by the crates below. Where a read
// or a write fails, or input is left over at the last position, it says so on standard error.
#![tactic(auto)]

mod stops;

ghost use Rattle.std.specs.Prelude.{◌≡◌, ◌<◌, length};
ghost use Rattle.refusals.specs.Numbers.{accepted};
ghost use Rattle.answers.specs.Answers.{answered};
ghost use Rattle.answers.specs.Tests.{limit};
ghost use Rattle.applying.specs.Applying.{windowed, windowed_buffer};
ghost use Rattle.cipher_io.specs.Passing.{going_on, writing_failed, ReadOnce, HeaderRead, PiecePassed, DataPassed, Ran};
ghost use Rattle.cipher_io.specs.Stops.{stop_number, stop_of, count_of};

use answers::{LIMIT, Refused};
use applying::window;
use framing::{LONGEST_HEADER, header_lacks, refusal_line, room, start};
use generator::State;
use refusals::Refusal;
use std::io::Read;
use stops::Stop;

// Standard output and standard error.
const STDOUT: i32 = 1;

const STDERR: i32 = 2;

// The bytes of the buffer that the data pass through.
const BUFFER_BYTES: usize = 65536;

// Reads once, as many bytes as come.
fn read_once(rt: &HostRuntime, buffer: &mut [u8]) -> Result<usize, Stop>
    ensures { ReadOnce buffer.new (count_of result) (stop_of result) }
{
    match rt.stdin().read(buffer) {
        Ok(0) => Err(Stop::InputEnded),
        Ok(n) => Ok(n),
        Err(_) => Err(Stop::ReadingFailed),
    }
}

// Reads the header to the front of an array, as much of it as there is: how many bytes, and why no more of it was read.
// A loop of reads: `HeaderRead` has how many bytes came, which `read_exact` does not say where the input ends.
fn read_header(rt: &HostRuntime, header: &mut [u8; LONGEST_HEADER]) -> (usize, Result<(), Stop>)
    ensures { HeaderRead header.new result.0 (stop_of result.1) }
{
    let mut count = 0;
    loop {
        let lack = header_lacks(&header[..count]);
        if lack == 0 {
            return (count, Ok(()));
        }
        let end = count + lack;
        match read_once(rt, &mut header[count..end]) {
            Ok(n) => count += n,
            Err(stop) => return (count, Err(stop)),
        }
    }
}

// Writes all of the bytes to standard output, by the kit's `io`: a write that a signal interrupts has failed, where std would write again.
fn write_out(bytes: &[u8]) -> Result<(), Stop>
    ensures { (stop_of result ≡ going_on → ⊥) → stop_of result ≡ writing_failed }
{
    if io::write_all(STDOUT, bytes) {
        Ok(())
    } else {
        Err(Stop::WritingFailed)
    }
}

// Writes the line of a refusal.
fn write_refusal(refusal: Refusal) -> Result<(), Stop>
    ensures { (stop_of result ≡ going_on → ⊥) → stop_of result ≡ writing_failed }
{
    let line = refusal_line(refusal.number());
    write_out(&line.bytes[..line.count])
}

// Writes the piece with the keystream applied; where the window call refuses it, nothing.
fn write_piece(s: State, piece: &mut [u8]) -> (State, Result<(), Stop>)
    ensures state_value { result.0 ≡ (windowed s piece.old 0 (length piece.old)).state }
    ensures piece_value { stop_of result.1 ≡ going_on → (windowed s piece.old 0 (length piece.old)).number ≡ accepted }
    ensures piece_after { piece.new ≡ windowed_buffer s piece.old 0 (length piece.old) }
{
    let n = piece.len();
    match window(s, piece, 0, n) {
        Ok(t) => (t, write_out(piece)),
        Err(refused) => (refused.state, Err(Stop::WritingFailed)),
    }
}

// Reads a piece to the front of the buffer, no further than the last position, and writes it with the keystream applied.
#[tactic(auto, using(crate::proofs::Pieces::none_passed))]
fn pass_piece(rt: &HostRuntime, s: State, buffer: &mut [u8]) -> (State, Result<(), Stop>)
    ensures { PiecePassed s (length buffer.old) buffer.new result.0 (stop_of result.1) }
{
    let most = room(s, buffer.len());
    match read_once(rt, &mut buffer[..most]) {
        Ok(n) => write_piece(s, &mut buffer[..n]),
        Err(stop) => (s, Err(stop)),
    }
}

// Piece after piece, to the end of the input, the last position, or a read or write that fails.
fn pass_data(rt: &HostRuntime, s: State) -> (State, Stop)
    ensures { DataPassed s result.0 (stop_number result.1) }
{
    let mut buffer = [0; BUFFER_BYTES];
    let mut state = s;
    loop {
        let (next, passed) = pass_piece(rt, state, &mut buffer);
        state = next;
        if let Err(stop) = passed {
            return (state, stop);
        }
    }
}

// Why the program stops where the data end: at the last position there may be more input, which one more byte shows.
fn last_stop(rt: &HostRuntime, position: u64, stop: Stop) -> Stop
    ensures { position < limit → result ≡ stop }
{
    if position < LIMIT || stop != Stop::InputEnded {
        return stop;
    }
    match read_once(rt, &mut [0]) {
        Ok(_) => Stop::InputLeftOver,
        Err(stop) => stop,
    }
}

// Says on standard error why the program stopped, where that is no end of the input; where that fails, there is nowhere to say so.
fn report(stop: Stop) {
    if let Some(message) = stop.message() {
        io::write_all(STDERR, message.as_bytes());
    }
}

// The whole program.
pub fn run(rt: &HostRuntime) -> Result<State, Refused>
    ensures { Ran (answered result) }
{
    let mut header = [0; LONGEST_HEADER];
    let (count, read) = read_header(rt, &mut header);
    if let Err(stop) = read {
        report(stop);
    }
    let state = match start(&header[..count]) {
        Ok(state) => state,
        Err(refused) => {
            if let Err(stop) = write_refusal(refused.refusal) {
                report(stop);
            }
            return Err(refused);
        }
    };
    let (state, stop) = pass_data(rt, state);
    report(last_stop(rt, state.position, stop));
    Ok(state)
}

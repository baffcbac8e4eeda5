// The desk program: reads the right and a file from standard input and prints the judge's answer. A read or a write that fails is said on standard error; after a
// failed read nothing is printed.
#![tactic(auto)]

ghost use Rattle.std.specs.Prelude.{◌≡◌, ◌+◌, ◌≤◌, ◌<◌, length, take, drop, OnOk, IsNone};
ghost use Rattle.std.specs.Io.KnownBytes.{Appends, Consumes, IsAtEnd};
ghost use Rattle.protection.specs.Limits.{file_bytes};
ghost use Rattle.listing.specs.Listing.{listing};
ghost use Rattle.listing.specs.Writing.{listing_bytes};

use std::io::{self, Read, Write};

// The right and one byte more than the longest file: a longer file is refused as one of this length is.
fn input_buffer() -> [u8; layout::BYTES + 2]
    ensures { file_bytes + 2 ≡ length result }
{
    [0u8; layout::BYTES + 2]
}

// Room for every listing.
fn output_buffer() -> [u8; listing::BYTES]
    ensures { listing_bytes ≡ length result }
{
    [0u8; listing::BYTES]
}

// Prints the listing of the input.
fn answer<W: Write>(to: &mut W, input: &[u8]) -> io::Result<()>
    ensures { OnOk result (Appends (W.contents to.old) (W.contents to.new) (listing input.now)) }
{
    let mut out = output_buffer();
    let m = listing::answer(input, &mut out);
    to.write_all(&out[..m])
}

// How many bytes came, and what went wrong where a read failed.
#[derive(Drop)]
struct Reading {
    failed: Option<io::Error>,
    bytes: usize,
}

// One read, into the bytes from a place on; what stands before it stays. At the end of the input none come; a read that fails is no end.
fn read_from<R: Read>(from: &mut R, input: &mut [u8], at: usize) -> Reading
    requires { at ≤ length input.old }
    ensures room { at + result.bytes ≤ length input.old }
    ensures front { take at input.new ≡ take at input.old }
    ensures bytes { Consumes (R.remaining from.old) (R.remaining from.new) (take result.bytes (drop at input.new)) }
    ensures end { IsNone result.failed → result.bytes ≡ 0 → at < length input.old → IsAtEnd (R.remaining from.new) }
{
    match from.read(&mut input[at..]) {
        Ok(bytes) => Reading {
            failed: None,
            bytes,
        },
        Err(error) => Reading {
            failed: Some(error),
            bytes: 0,
        },
    }
}

// Reads until the buffer is full, the input ends or a read fails. What came stands at the buffer's front, and nothing more was read.
fn read_input<R: Read>(from: &mut R, input: &mut [u8]) -> Reading
    ensures room { result.bytes ≤ length input.new }
    ensures bytes { Consumes (R.remaining from.old) (R.remaining from.new) (take result.bytes input.new) }
    ensures end { IsNone result.failed → result.bytes < length input.new → IsAtEnd (R.remaining from.new) }
{
    let mut n: usize = 0;
    // a read brings as many bytes as it likes
    while n < input.len() {
        let reading = read_from(from, input, n);
        n += reading.bytes;
        if reading.failed.is_some() || reading.bytes == 0 {
            return Reading {
                failed: reading.failed,
                bytes: n,
            };
        }
    }
    Reading {
        failed: None,
        bytes: n,
    }
}

// Says which stream failed, and why.
fn say(rt: &impl Eprint, stream: &str, error: io::Error) {
    let _ = eprintln!(rt; "{stream}: {error}");
}

fn main(rt: HostRuntime) {
    let mut input = input_buffer();
    let reading = read_input(&mut rt.stdin(), &mut input);
    if let Some(error) = reading.failed {
        say(&rt, "standard input", error);
        return;
    }
    let n = reading.bytes;
    if let Err(error) = answer(&mut rt.stdout(), &input[..n]) {
        say(&rt, "standard output", error);
    }
}

// Lent buffers, filled from a reader.
#![tactic(auto)]

ghost use Rattle.std.specs.Prelude.{◌≤◌, length, take, IfSome, OnSome};
ghost use Rattle.std.specs.Io.KnownBytes.{Consumes, IsAtEnd};

use std::io::Read;

// Reads until the buffer is full, the input ends or a read fails, and says how many bytes it put at the buffer's start.
pub fn fill<R: Read>(input: &mut R, buf: &mut [u8]) -> usize
    ensures within { result ≤ length buf.new }
    ensures bytes { Consumes (R.remaining input.old) (R.remaining input.new) (take result buf.new) }
{
    let mut filled = 0;
    // How often is the reader's to say, so no range counts it.
    while filled < buf.len() {
        match input.read(&mut buf[filled..]) {
            Ok(0) | Err(_) => break,
            Ok(n) => filled += n,
        }
    }
    filled
}

// Reads all of the input, and says how many bytes that is; none where the buffer is too short or a read fails.
pub fn fill_whole<R: Read>(input: &mut R, buf: &mut [u8]) -> Option<usize>
    ensures within { IfSome result (λ n. n ≤ length buf.new) }
    ensures bytes { IfSome result (λ n. Consumes (R.remaining input.old) (R.remaining input.new) (take n buf.new)) }
    ensures ended { OnSome result (IsAtEnd (R.remaining input.new)) }
{
    let n = fill(input, buf);
    match input.read(&mut [0]) {
        Ok(0) => Some(n),
        _ => None,
    }
}

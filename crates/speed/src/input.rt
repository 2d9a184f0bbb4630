// What the program is given: three files and three numbers.
ghost use Rattle.std.specs.Prelude.{◌≤◌, length};

use std::fs;
use std::rt::{Env, Files};

// The file's bytes at the start of the buffer, and their number; one that can't be opened has none.
pub fn file(rt: &impl Files, path: &[u8], buf: &mut [u8]) -> usize
    ensures { result ≤ length buf.new }
{
    let Ok(path) = str::from_utf8(path) else {
        return 0;
    };
    let Ok(mut file) = fs::open(rt, path) else {
        return 0;
    };
    buffers::fill(&mut file, buf)
}

// The number that the text starts with, of at most nine digits.
fn number(text: &[u8]) -> u32 {
    let mut n = 0;
    for digit in text {
        if !digit.is_ascii_digit() || n >= 100_000_000 {
            break;
        }
        n = 10 * n + u32::from(digit - b'0');
    }
    n
}

// How often a part is repeated: the argument of that number, 0 if there is none.
pub fn times(rt: &impl Env, argument: usize) -> u32 {
    let mut text = [0u8; 16];
    rt.arg(argument, &mut text)
        .map_or(0, |n| number(&text[..n]))
}

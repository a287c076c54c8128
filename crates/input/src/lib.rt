// Reads a text into an array that is lent, as every program does.

#![tactic(auto)]

ghost use Rattle.std.specs.Prelude.{◌≤◌, ◌<◌, IfOk, length, take};
ghost use Rattle.std.specs.Io.KnownBytes.{Consumes, IsAtEnd};

use std::fs;
use std::io::{Read, Result};
use std::rt::Files;

/// Reads until the room is full or the input ends, and returns how many bytes it put at the start of the room. An error of a read is handed up. A read may give
/// fewer bytes than there is room for, so the place moves by what each gives.
pub fn read_full<R: Read>(input: &mut R, room: &mut [u8]) -> Result<usize>
    ensures fits { IfOk result (λ n. n ≤ length room.new) }
    ensures bytes { IfOk result (λ n. Consumes (R.remaining input.old) (R.remaining input.new) (take n room.new)) }
    ensures end { IfOk result (λ n. n < length room.new → IsAtEnd (R.remaining input.new)) }
{
    let mut done = 0;
    while done < room.len() {
        let n = input.read(&mut room[done..])?;
        if n == 0 {
            break;
        }
        done += n;
    }
    Ok(done)
}

/// Reads a file as `read_full` does. One that cannot be opened, or of which a read fails, counts as empty: never is a part of it taken for the whole. Of its bytes no
/// contract can speak.
pub fn read_file<F: Files>(files: &F, name: &str, room: &mut [u8]) -> usize
    ensures { result ≤ length room.new }
{
    match fs::open(files, name) {
        Ok(mut file) => read_full(&mut file, room).unwrap_or(0),
        Err(_) => 0,
    }
}

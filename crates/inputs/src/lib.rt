// What a program is given: its arguments, and an input read until a buffer is full.
#![tactic(auto)]

ghost use Rattle.std.specs.Prelude.{◌<◌, ◌≤◌, IfOk, take, length};
ghost use Rattle.std.specs.Io.{ReadsAtMost};
ghost use Rattle.std.specs.Io.KnownBytes.{Consumes, IsAtEnd};

use std::env::FillError;
use std::io::Read;
use std::rt::{Env, Files};
use std::{fs, io, str};

// Reads until the buffer is full or the input ends, and answers how many bytes it put at the start of the buffer.
pub fn read_full<R: Read>(input: &mut R, buffer: &mut [u8]) -> io::Result<usize>
    ensures bound { ReadsAtMost result buffer.new }
    ensures bytes { IfOk result (λ n. Consumes (R.remaining input.old) (R.remaining input.new) (take n buffer.new)) }
    ensures end { IfOk result (λ n. n < length buffer.new → IsAtEnd (R.remaining input.new)) }
{
    let mut done = 0;
    while done < buffer.len() {
        let n = input.read(&mut buffer[done..])?;
        if n == 0 {
            break;
        }
        done += n;
    }
    Ok(done)
}

// How many arguments there are, the program's name among them.
pub fn arg_count<E: Env>(rt: &E) -> usize {
    for i in 0..usize::MAX {
        if let Err(FillError::NotPresent) = rt.arg(i, &mut []) {
            return i;
        }
    }
    usize::MAX
}

// Puts argument i at the start of the buffer and answers its length, or 0 where it is missing or longer than the buffer.
pub fn arg<E: Env>(rt: &E, i: usize, buffer: &mut [u8]) -> usize
    ensures { result ≤ length buffer.new }
{
    match rt.arg(i, buffer) {
        Ok(n) => n,
        Err(_) => 0,
    }
}

// Opens the file of that name for reading. Where it can't be opened, a line on standard error says why, and there is none.
pub fn open_read<R: Files + Eprint>(rt: &R, name: &[u8]) -> io::Result<Option<R::File>> {
    let Ok(path) = str::from_utf8(name) else {
        eprintln!(rt; "a file name that is no text: not opened")?;
        return Ok(None);
    };
    match fs::open(rt, path) {
        Ok(file) => Ok(Some(file)),
        Err(error) => {
            eprintln!(rt; "{path}: {error}")?;
            Ok(None)
        }
    }
}

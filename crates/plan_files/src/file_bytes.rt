// A file's bytes, at the front of a buffer. No contract can say which bytes the system gives; these say what each answer of a read is taken for,
// how many bytes of the buffer count, that after a failure none does, and that of a reader whose bytes are known those that count are its first ones.
ghost use Rattle.std.specs.Prelude.{◌≡◌};
ghost use Rattle.io.specs.Counts.{IsPrefixLen};
ghost use Rattle.plan_files.specs.FileReading.{after_read, count_of, LoadedFrom};

use std::fs;
use std::io::{ErrorKind, Read, Result};
use std::rt::Files;

// What comes after a read that didn't fail: one behind its bytes, the same once more, or none, at the end of the file.
#[derive(Clone, Copy)]
enum Next {
    Onward(usize),
    Again,
    End,
}

// What comes after a read. One that a signal interrupts is made again, while times are left; any other failure is that of the whole file.
fn after_read(read: Result<usize>, left: usize) -> Result<Next>
    ensures { result ≡ after_read read left }
{
    match read {
        Ok(0) => Ok(Next::End),
        Ok(count) => Ok(Next::Onward(count)),
        Err(error) if error.kind() == ErrorKind::Interrupted && left > 0 => Ok(Next::Again),
        Err(error) => Err(error),
    }
}

// Reads until `bytes` is full, the input ends or a read fails. An interrupted read is made again 1,000 times at most, since the loop has to end.
fn read_bytes<F: Read>(file: &mut F, bytes: &mut [u8]) -> Result<usize>
    ensures counts { IsPrefixLen (count_of result) bytes.new }
    ensures loaded { LoadedFrom (F.remaining file.old) (F.remaining file.new) result bytes.new }
{
    let mut done = 0;
    let mut left = 1000usize;
    while done < bytes.len() {
        let read = file.read(&mut bytes[done..]);
        match after_read(read, left)? {
            Next::Onward(count) => done += count,
            Next::Again => left -= 1,
            Next::End => break,
        }
    }
    Ok(done)
}

// The buffer has a place for one byte more than a file may have, so that a longer file is seen.
fn read_file(rt: &impl Files, path: &str, bytes: &mut [u8; 65537]) -> Result<usize>
    ensures { IsPrefixLen (count_of result) bytes.new }
{
    let mut file = fs::open(rt, path)?;
    read_bytes(&mut file, bytes)
}

// How many bytes count: none of a file that couldn't be read, of which standard error is told.
fn counted(rt: &impl Eprint, loaded: Result<usize>, path: &str) -> usize
    ensures { result ≡ count_of loaded }
{
    match loaded {
        Ok(count) => count,
        Err(_) => {
            let _ = eprintln!(rt; "{path} couldn't be read");
            0
        }
    }
}

// Puts a file's bytes at the front of `bytes`, and answers how many count.
pub fn load(rt: &(impl Files + Eprint), path: &str, bytes: &mut [u8; 65537]) -> usize
    ensures { IsPrefixLen result bytes.new }
{
    let loaded = read_file(rt, path, bytes);
    counted(rt, loaded, path)
}

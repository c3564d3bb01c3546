// A new file, whole or not there: its bytes are written to a file of another name, a part, which takes the name when all of them are on the device.
// No contract can say what the system does; these say what each of its answers is taken for, and what a writer holds whose bytes are known.
ghost use Rattle.std.specs.Prelude.{◌≡◌, IsOk, OnOk, IfErr, Err, Some, pos, true};
ghost use Rattle.std.specs.IoError.{error_kind, raw_os_error};
ghost use Rattle.std.specs.Io.KnownBytes.{Appends};
ghost use Rattle.plan_conversions.specs.FileWriting.{after_create, after_fill, is_taken};

use std::fmt::InlineText;
use std::fs;
use std::fs::{OpenFile, OpenOptions};
use std::io::{Error, ErrorKind, Result, Write};
use std::rt::Files;

// The system's number for a name that is taken.
const EEXIST: i32 = 17;

// The names that a part may have.
const PARTS: [&str; 10] = [
    "plan.wit.part0",
    "plan.wit.part1",
    "plan.wit.part2",
    "plan.wit.part3",
    "plan.wit.part4",
    "plan.wit.part5",
    "plan.wit.part6",
    "plan.wit.part7",
    "plan.wit.part8",
    "plan.wit.part9",
];

// What came of the making of a file: the file, or none where its name was taken.
fn after_create<F>(created: Result<F>) -> Result<Option<F>>
    ensures { result ≡ after_create created }
{
    match created {
        Ok(file) => Ok(Some(file)),
        Err(error) if error.kind() == ErrorKind::AlreadyExists => Ok(None),
        Err(error) => Err(error),
    }
}

// The error of a name that is taken, by the system's number.
fn name_taken() -> Error
    ensures number { raw_os_error result ≡ Some (pos 17) }
    ensures kind { is_taken (error_kind result) ≡ true }
{
    Error::from_raw_os_error(EEXIST)
}

// A part: its name and the file.
struct Part<F> {
    name: &'static str,
    file: F,
}

// Makes a part by the first of ten names that isn't taken, as a run that was ended may have left one, or answers the last error.
fn make_part<R: Files>(rt: &R) -> Result<Part<R::File>> {
    for name in PARTS {
        let created = OpenOptions::new()
            .write(true)
            .create_new(true)
            .open(rt, name);
        if let Some(file) = after_create(created)? {
            return Ok(Part { name, file });
        }
    }
    Err(name_taken())
}

// Whether all bytes are in the file: they were all taken, have reached the device, and the file was closed. If not, the last error says why.
fn after_fill(written: Result<()>, synced: Result<()>, closed: Result<()>) -> Result<()>
    ensures { result ≡ after_fill written synced closed }
{
    closed.and(synced).and(written)
}

// Puts the bytes into a part and waits until they are on the device. std closes a file where it is dropped, and doesn't tell how that ended.
fn fill<F: Write + OpenFile>(file: &mut F, bytes: &[u8]) -> Result<()>
    ensures { OnOk result (Appends (F.contents file.old) (F.contents file.new) bytes.now) }
{
    let written = file.write_all(bytes);
    let synced = file.sync_all();
    after_fill(written, synced, Ok(()))
}

// Gives a part that is filled the file's name, in place of any other file of that name.
fn rename_filled(rt: &impl Files, filled: Result<()>, part: &str, name: &str) -> Result<()>
    ensures { IfErr filled (λ e. result ≡ Err e) }
{
    filled?;
    fs::rename(rt, part, name)
}

// Gives a part that is filled the file's name. Where it isn't, or that fails, it is removed, and the last error says why.
fn place(rt: &impl Files, filled: Result<()>, part: &str, name: &str) -> Result<()>
    ensures { IsOk result → IsOk filled }
{
    let placed = rename_filled(rt, filled, part, name);
    if placed.is_ok() {
        return placed;
    }
    fs::remove_file(rt, part).and(placed)
}

// An error's text without the number that std puts behind it.
fn without_number(text: &str) -> &str {
    match text.split_once(" (os error ") {
        Some((reason, _)) => reason,
        None => text,
    }
}

// Tells standard error that a file couldn't be written, and why.
fn tell(rt: &impl Eprint, name: &str, error: Error) {
    let text = InlineText::<256>::of(error);
    let reason = without_number(text.as_str());
    let _ = eprintln!(rt; "{name} couldn't be written: {reason}");
}

// Writes a file by way of a part.
fn write_whole(rt: &impl Files, name: &str, bytes: &[u8]) -> Result<()> {
    let Part {
        name: part,
        mut file,
    } = make_part(rt)?;
    let filled = fill(&mut file, bytes);
    drop(file);
    place(rt, filled, part, name)
}

// Writes a file, and answers whether it is there, whole. Where it isn't, standard error is told, and a file of that name is as it was.
pub(crate) fn save(rt: &(impl Files + Eprint), name: &str, bytes: &[u8]) -> bool {
    match write_whole(rt, name, bytes) {
        Ok(()) => true,
        Err(error) => {
            tell(rt, name, error);
            false
        }
    }
}

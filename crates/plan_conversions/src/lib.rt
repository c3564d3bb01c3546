// A certificate in a file, converted to the other stored form or trimmed: from the bytes of two files to those of a new one, and the line that tells of
// it.
// `plan_conversion` makes bytes and answer, and its contract says which; no contract can say what a call of the system reads or writes.
#![tactic(auto)]

ghost use Rattle.std.specs.Prelude.{◌≡◌, ◌≤◌, length};
ghost use Rattle.answers.specs.Written.{Wrote};
ghost use Rattle.conversions.specs.Conversions.{converted};
ghost use Rattle.plan_conversions.specs.PlanConversions.{converted_by, FileConverts};
ghost use Rattle.plan_conversions.specs.Asked.{asked_by};

use answers::Refusal;
use plan_files::file_bytes::load;
use plan_text::{answer_lines, byte_words, word_bytes};
use std::io;
use std::rt::{Env, Files};
use words::StoredForm;

mod new_file;

use new_file::save;

// What a certificate is converted to: the other form of one that is read in this form, or a trimmed one.
#[derive(Clone, Copy)]
pub enum Conversion {
    From(StoredForm),
    Trimmed,
}

// What the command's argument asks for, if it is one of the words for a conversion.
fn asked_by(argument: &[u8]) -> Option<Conversion>
    ensures { result ≡ asked_by argument.now }
{
    if check::same(argument, b"sparse") {
        return Some(Conversion::From(StoredForm::Dense));
    }
    if check::same(argument, b"dense") {
        return Some(Conversion::From(StoredForm::Sparse));
    }
    if check::same(argument, b"trimmed") {
        return Some(Conversion::Trimmed);
    }
    None
}

// A certificate that is read in a form, in the other one.
fn convert_from(
    program: &[i32],
    certificate: &[i32],
    form: StoredForm,
    buffer: &mut [i32],
) -> Result<usize, Refusal>
    ensures { Wrote (converted program.now certificate.now form (length buffer.old)) buffer.old result buffer.new }
{
    match form {
        StoredForm::Dense => converters::to_sparse(program, certificate, buffer),
        StoredForm::Sparse => converters::to_dense(program, certificate, buffer),
    }
}

// A certificate, converted.
fn convert(
    program: &[i32],
    certificate: &[i32],
    conversion: Conversion,
    buffer: &mut [i32],
) -> Result<usize, Refusal>
    ensures { Wrote (converted_by conversion program.now certificate.now (length buffer.old)) buffer.old result buffer.new }
{
    match conversion {
        Conversion::From(form) => convert_from(program, certificate, form, buffer),
        Conversion::Trimmed => trimmer::trim(program, certificate, buffer),
    }
}

// The certificate whose file has these bytes, converted: its file's bytes, at the result's front.
pub fn plan_conversion(
    program: &[u8],
    certificate: &[u8],
    conversion: Conversion,
    res: &mut [u8],
) -> Result<usize, Refusal>
    requires { 65536 ≤ length res.old }
    ensures { FileConverts conversion program.now certificate.now res.old result res.new }
{
    let mut program_words = [0i32; 16384];
    let mut certificate_words = [0i32; 16384];
    let mut buffer = [0i32; 16384];
    let n = byte_words::file_words(program, &mut program_words);
    let m = byte_words::file_words(certificate, &mut certificate_words);
    let count = convert(
        &program_words[..n],
        &certificate_words[..m],
        conversion,
        &mut buffer,
    )?;
    word_bytes::write_words(&buffer[..count], res);
    Ok(count)
}

fn print_line(rt: &impl Print, writing: Result<usize, Refusal>) -> io::Result<()> {
    let mut line = [0u8; 363];
    let count = answer_lines::writing_line(writing, &mut line);
    rt.write_all(&line[..count])
}

// Writes the file of the form that isn't read.
fn save_from(rt: &(impl Files + Eprint), form: StoredForm, bytes: &[u8]) -> bool {
    match form {
        StoredForm::Dense => save(rt, "plan.sparse.wit", bytes),
        StoredForm::Sparse => save(rt, "plan.dense.wit", bytes),
    }
}

// Writes the file of a conversion.
fn save_converted(rt: &(impl Files + Eprint), conversion: Conversion, bytes: &[u8]) -> bool {
    match conversion {
        Conversion::From(form) => save_from(rt, form, bytes),
        Conversion::Trimmed => save(rt, "plan.trimmed.wit", bytes),
    }
}

// Makes a conversion of the certificate in two files. The line is printed last: after `written` the new file is there.
fn run_for(
    rt: &(impl Files + Print + Eprint),
    conversion: Conversion,
    program_path: &str,
    certificate_path: &str,
) -> io::Result<()> {
    let mut program = [0u8; 65537];
    let mut certificate = [0u8; 65537];
    let mut result = [0u8; 65536];
    let n = load(rt, program_path, &mut program);
    let m = load(rt, certificate_path, &mut certificate);
    let writing = plan_conversion(&program[..n], &certificate[..m], conversion, &mut result);
    if let Ok(count) = writing {
        let end = count * 4;
        if !save_converted(rt, conversion, &result[..end]) {
            return Ok(());
        }
    }
    print_line(rt, writing)
}

// Converts the certificate in two files, as the program's argument asks.
pub fn run(
    rt: &(impl Files + Env + Print + Eprint),
    program_path: &str,
    certificate_path: &str,
) -> io::Result<()> {
    let mut argument = [0u8; 16];
    let count = rt.arg(1, &mut argument).unwrap_or(0);
    let Some(conversion) = asked_by(&argument[..count]) else {
        let _ = rt.eprintln("the argument is none of sparse, dense and trimmed");
        return Ok(());
    };
    run_for(rt, conversion, program_path, certificate_path)
}

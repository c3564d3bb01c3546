// The worked cases of document 01, a line each, and then what the answer to some of them speaks of, again a line each: refusals 2, 15, 7, one past
// the end (6), one for the lack of a buffer (13), and safe. `make-data` writes their files and the lines that are due.
// The answer to plan B without a buffer is not among the first: a program over files has a buffer. It is one of `checker/MarkedCases`.
#![tactic(auto)]

use std::io::Result;
use std::rt::Files;

fn certificates(rt: &(impl Files + Print + Eprint)) -> Result<()> {
    plan_files::run(rt, "plan_a.lin", "plan_a.wit")?;
    plan_files::run(rt, "row_599.lin", "row_599.wit")?;
    plan_files::run(rt, "row_600.lin", "row_600.wit")?;
    plan_files::run(rt, "row_539.lin", "row_539.wit")?;
    plan_files::run(rt, "seventh_word_0.lin", "seventh_word_0.wit")?;
    plan_files::run(rt, "word_more_counted.lin", "word_more_counted.wit")?;
    plan_files::run(rt, "word_more.lin", "word_more.wit")?;
    Ok(())
}

fn traces(rt: &(impl Files + Print + Eprint)) -> Result<()> {
    plan_files::run(rt, "plan_b.lin", "plan_b.wit")?;
    plan_files::run(rt, "plan_b_600.lin", "plan_b_600.wit")?;
    plan_files::run(rt, "plan_b_599.lin", "plan_b_599.wit")?;
    Ok(())
}

fn limits(rt: &(impl Files + Print + Eprint)) -> Result<()> {
    plan_files::run(rt, "thousandfold.lin", "thousandfold.wit")?;
    plan_files::run(rt, "thousandfold_plus_1.lin", "thousandfold_plus_1.wit")?;
    plan_files::run(rt, "start_beyond.lin", "start_beyond.wit")?;
    plan_files::run(rt, "calls_64.lin", "calls_64.wit")?;
    plan_files::run(rt, "calls_65.lin", "calls_65.wit")?;
    Ok(())
}

fn diagnoses(rt: &(impl Files + Print + Eprint)) -> Result<()> {
    plan_files::run_part(rt, "exit_kind.lin", "exit_kind.wit")?;
    plan_files::run_part(rt, "constant_row.lin", "constant_row.wit")?;
    plan_files::run_part(rt, "row_600.lin", "row_600.wit")?;
    plan_files::run_part(rt, "word_missing.lin", "word_missing.wit")?;
    plan_files::run_part(rt, "plan_b.lin", "plan_b.wit")?;
    plan_files::run_part(rt, "plan_a.lin", "plan_a.wit")?;
    Ok(())
}

fn main(rt: HostRuntime) -> Result<()> {
    certificates(&rt)?;
    traces(&rt)?;
    limits(&rt)?;
    diagnoses(&rt)
}

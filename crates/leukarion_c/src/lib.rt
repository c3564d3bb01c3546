// The checker and the converters as a static library, for C or Rust to call. include/leukarion.h declares it.
#![tactic(auto)]

ghost use Rattle.std.specs.Prelude.{length};
ghost use Rattle.conversions.specs.Conversions.{to_sparse, to_dense};
ghost use Rattle.outcomes.specs.Outcomes.{Told};
ghost use Rattle.outcomes.specs.WritingOutcomes.{WritingTold};

use outcomes::{Outcome, told, writing_told};

// The answer to a program and a certificate or a trace. After an accepted trace the buffer's front holds the values at the failed
// assertion; else the buffer is as it was. The name of each function has the version with which its interface last changed (CHANGELOG.md), so
// that a caller made for another one doesn't link; C callers write the name without it, by include/leukarion.h.
#[unsafe(no_mangle)]
pub extern "C" fn leukarion_check_0_5(
    program: &[i32],
    witness: &[i32],
    buffer: &mut [i64],
) -> Outcome
    ensures { Told program.now witness.now buffer.old result buffer.new }
{
    told(leukarion::check(program, witness, buffer))
}

// A dense certificate of a program, with sparse rows: its words at the front of the result, or a refusal, and the result is as it was.
#[unsafe(no_mangle)]
pub extern "C" fn leukarion_to_sparse_0_6(
    program: &[i32],
    certificate: &[i32],
    res: &mut [i32],
) -> Outcome
    ensures { WritingTold (to_sparse program.now certificate.now (length res.old)) res.old result res.new }
{
    writing_told(converters::to_sparse(program, certificate, res))
}

// A sparse certificate of a program, with dense rows, in the same way.
#[unsafe(no_mangle)]
pub extern "C" fn leukarion_to_dense_0_6(
    program: &[i32],
    certificate: &[i32],
    res: &mut [i32],
) -> Outcome
    ensures { WritingTold (to_dense program.now certificate.now (length res.old)) res.old result res.new }
{
    writing_told(converters::to_dense(program, certificate, res))
}

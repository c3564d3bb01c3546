// The trimmer for C or Rust to call, compiled apart from the check, so that this has the makers of entailments for itself alone and they are compiled into its search.
// include/leukarion.h declares it, and says what the name's version is.
#![tactic(auto)]

ghost use Rattle.std.specs.Prelude.{length};
ghost use Rattle.trimmed_words.specs.Trim.{trim};
ghost use Rattle.outcomes.specs.WritingOutcomes.{WritingTold};

use outcomes::{Outcome, writing_told};

// A certificate of a program, of either form, cut down to what is used of it, with dense rows: its words at the front of the result, or a refusal,
// and the result is as it was. What the judge refuses is refused.
#[unsafe(no_mangle)]
pub extern "C" fn leukarion_trim_0_7(
    program: &[i32],
    certificate: &[i32],
    res: &mut [i32],
) -> Outcome
    ensures { WritingTold (trim program.now certificate.now (length res.old)) res.old result res.new }
{
    writing_told(trimmer::trim(program, certificate, res))
}

// The parts of a certificate's words, written in the other form: each into the buffer from `to` on.
ghost use Rattle.std.specs.Prelude.{◌≡◌, ◌+◌, ◌≤◌, pos, length};
ghost use Rattle.std.proofs.lemmas.List.Edits.{sets};
ghost use Rattle.words.specs.Limits.{most_words, most_disjuncts};
ghost use Rattle.certificates.specs.CertificateWords.{mark_of, start_of, entries};
ghost use Rattle.certificates.specs.CertificateForm.{DisjunctsForm};
ghost use Rattle.program_readers.specs.Owners.{Owners};
ghost use Rattle.conversions.specs.Conversions.{other_form};
ghost use Rattle.layout_writers.specs.OtherCode.{disjuncts_other};
ghost use Rattle.converters.specs.OtherEntries.{entries_other, places_other};
ghost use Rattle.layout_writers.specs.Given.{Given};

use certificate_form::edge_columns;
use certificate_readers::{disjunct_words, entry_count, entry_place, rows_start};
use layout_writers::write_disjunct;
use program_readers::places::Sizes;
use words::StoredForm;

const CERTIFICATE_MARK: i32 = 1;

const SPARSE_MARK: i32 = 4;

// The mark of a certificate of the other form.
pub(crate) fn other_mark(form: StoredForm) -> i32
    ensures { result ≡ pos (mark_of (other_form form)) }
{
    match form {
        StoredForm::Dense => SPARSE_MARK,
        StoredForm::Sparse => CERTIFICATE_MARK,
    }
}

// So many disjuncts from `at` on.
fn write_disjuncts(
    rows: &[i32],
    at: usize,
    columns: usize,
    count: usize,
    form: StoredForm,
    buffer: &mut [i32],
    to: usize,
) -> usize
    requires columns_bound { columns ≤ 64 }
    requires count_le_most_disjuncts { (count ≤ most_disjuncts) × (at ≤ most_words) }
    requires disjuncts_form { DisjunctsForm form rows.now columns count at }
    requires count_in_bounds { to + length (disjuncts_other form columns rows.now at count) ≤ length buffer.old }
    ensures value { result ≡ length (disjuncts_other form columns rows.now at count) }
    ensures buffer_after { buffer.new ≡ sets buffer.old to (disjuncts_other form columns rows.now at count) }
{
    let mut from = at;
    let mut size = 0;
    for i in 0..count {
        let written = write_disjunct(rows, from, columns, form, buffer, to + size);
        let taken = disjunct_words(rows, columns, from, form);
        size = size + written;
        from = from + taken;
    }
    size
}

// The places of all entries behind the counts, and their row words from `start` on: each entry stands where those before it end.
pub(crate) fn write_entries(
    program: &[i32],
    sizes: Sizes,
    owners: &[usize],
    certificate: &[i32],
    rows: &[i32],
    form: StoredForm,
    buffer: &mut [i32],
)
    requires given { Given program.now certificate.now form sizes rows.now }
    requires owners { Owners program.now owners.now }
    requires form_len_bound { length (entries_other program.now certificate.now form 0) ≤ most_words }
    requires form_in_bounds { start_of (entries program.now certificate.now) + length (entries_other program.now certificate.now form 0) ≤ length buffer.old }
    ensures { buffer.new ≡ sets (sets buffer.old (3 + entries program.now certificate.now) (places_other program.now certificate.now form 0 0)) (start_of (entries program.now certificate.now)) (entries_other program.now certificate.now form 0) }
{
    let entries = sizes.statements + sizes.procedures + sizes.procedures;
    let table = 3 + entries;
    let start = rows_start(entries);
    let mut at = 0;
    for i in 0..entries {
        let columns = edge_columns(program, sizes, owners, i + 1);
        let count = entry_count(certificate, i + 1);
        let place = entry_place(certificate, entries, i + 1);
        let slot = table + i;
        buffer[slot] = at as i32;
        let to = start + at;
        let written = write_disjuncts(rows, place, columns, count, form, buffer, to);
        at = at + written;
    }
}

//! Printing a summary to a desk, through a buffer and without taking memory.
//!
//! The lines stand in the order of a run: what came in, what is left, what each technique did, and how it ended.

ghost use Rattle.std.specs.Prelude.{◌≡◌, Some, decimal};
ghost use Rattle.cp_io.specs.declared.role.Way.TheVariants.{Out};
ghost use Rattle.cp_io.specs.declared.role.Role.TheVariants.{Summary};
ghost use Rattle.cp_io.specs.Port.{AtRole, Writes};
ghost use Rattle.cp_io.specs.Prints.{Prints};
ghost use Rattle.cp_summary.specs.Text.{summary_text, input_text, reduced_text, counts_text, end_text, line, stop_text, printed_sizes};

use crate::kinds::Kind;
use crate::sizes::Sizes;
use cp_io::{Desk, Failed, OutputBuffer, Role};
use cp_logic::{Formula, Journal, Stop};

/// Prints the summary of a run to the role Summary: the sizes of its input, those of the reduced formula as it is printed, how
/// often each technique was used, the number of pairs on the stack, why the run stopped, and its status. It takes no memory.
///
/// Where a write fails, a front of the text was written.
pub fn print_summary<D: Desk>(
    desk: &mut D,
    input: Sizes,
    reduced: &Formula,
    journal: &Journal,
    pairs: u64,
    stopped: Option<Stop>,
    status: u8,
) -> Result<(), Failed>
    requires { (D.port desk.old Summary).way ≡ Some Out }
    ensures { AtRole Summary (Writes (summary_text input reduced.now.formula journal.now.items pairs stopped status) result) (D.port desk.old) (D.port desk.new) }
{
    let mut buffer = OutputBuffer::new();
    put_input(&mut buffer, desk, input);
    put_reduced(&mut buffer, desk, Sizes::of_text(reduced));
    put_counts(&mut buffer, desk, journal);
    put_end(&mut buffer, desk, pairs, stopped, status);
    buffer.finish(desk, Role::Summary)
}

fn put_input<D: Desk>(buffer: &mut OutputBuffer, desk: &mut D, sizes: Sizes)
    requires { (D.port desk.old Summary).way ≡ Some Out }
    ensures prints { Prints Summary (input_text sizes) buffer.old (D.port desk.old) buffer.new (D.port desk.new) }
    ensures bound { (D.port desk.new Summary).way ≡ Some Out }
{
    put_number(buffer, desk, b"variables", sizes.variables as u128);
    put_number(buffer, desk, b"clauses", sizes.clauses as u128);
    put_number(buffer, desk, b"literals", sizes.literals);
}

fn put_reduced<D: Desk>(buffer: &mut OutputBuffer, desk: &mut D, sizes: Sizes)
    requires { (D.port desk.old Summary).way ≡ Some Out }
    ensures prints { Prints Summary (reduced_text sizes) buffer.old (D.port desk.old) buffer.new (D.port desk.new) }
    ensures bound { (D.port desk.new Summary).way ≡ Some Out }
{
    put_number(buffer, desk, b"reduced-clauses", sizes.clauses as u128);
    put_number(buffer, desk, b"reduced-literals", sizes.literals);
}

fn put_counts<D: Desk>(buffer: &mut OutputBuffer, desk: &mut D, journal: &Journal)
    requires { (D.port desk.old Summary).way ≡ Some Out }
    ensures prints { Prints Summary (counts_text journal.now.items) buffer.old (D.port desk.old) buffer.new (D.port desk.new) }
    ensures bound { (D.port desk.new Summary).way ≡ Some Out }
{
    put_number(
        buffer,
        desk,
        b"tautologies",
        Kind::Taut.count(journal) as u128,
    );
    put_number(
        buffer,
        desk,
        b"subsumed",
        Kind::Subsume.count(journal) as u128,
    );
    put_number(
        buffer,
        desk,
        b"strengthened",
        Kind::Strengthen.count(journal) as u128,
    );
    put_number(buffer, desk, b"blocked", Kind::Block.count(journal) as u128);
    put_number(
        buffer,
        desk,
        b"eliminated",
        Kind::Eliminate.count(journal) as u128,
    );
}

fn put_end<D: Desk>(
    buffer: &mut OutputBuffer,
    desk: &mut D,
    pairs: u64,
    stopped: Option<Stop>,
    status: u8,
)
    requires { (D.port desk.old Summary).way ≡ Some Out }
    ensures prints { Prints Summary (end_text pairs stopped status) buffer.old (D.port desk.old) buffer.new (D.port desk.new) }
    ensures bound { (D.port desk.new Summary).way ≡ Some Out }
{
    put_number(buffer, desk, b"pairs", pairs as u128);
    put_line(buffer, desk, b"stopped", stop_word(stopped));
    put_number(buffer, desk, b"status", status as u128);
}

fn put_number<D: Desk>(buffer: &mut OutputBuffer, desk: &mut D, name: &[u8], value: u128)
    requires { (D.port desk.old Summary).way ≡ Some Out }
    ensures prints { Prints Summary (line name.now (decimal value)) buffer.old (D.port desk.old) buffer.new (D.port desk.new) }
    ensures bound { (D.port desk.new Summary).way ≡ Some Out }
{
    let mut number = itoa::Buffer::new();
    put_line(buffer, desk, name, number.format(value).as_bytes());
}

// A name, a space, a value and a line feed.
fn put_line<D: Desk>(buffer: &mut OutputBuffer, desk: &mut D, name: &[u8], value: &[u8])
    requires { (D.port desk.old Summary).way ≡ Some Out }
    ensures prints { Prints Summary (line name.now value.now) buffer.old (D.port desk.old) buffer.new (D.port desk.new) }
    ensures bound { (D.port desk.new Summary).way ≡ Some Out }
{
    buffer.put(desk, Role::Summary, name);
    buffer.put(desk, Role::Summary, b" ");
    buffer.put(desk, Role::Summary, value);
    buffer.put(desk, Role::Summary, b"\n");
}

fn stop_word(stopped: Option<Stop>) -> &'static [u8]
    ensures { result.now ≡ stop_text stopped }
{
    match stopped {
        None => b"none",
        Some(Stop::Spent) => b"spent",
        Some(Stop::Numbers) => b"numbers",
        Some(Stop::Refuted) => b"refuted",
    }
}

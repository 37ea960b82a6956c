//! Printing a model to a desk, through a buffer and without taking memory.
//!
//! The text is what the SAT competitions ask of a solver: a status line, and value lines that begin with `v` and hold the literals
//! that are true, of which the last is followed by a 0. Ten literals stand on a line, so that no line grows long, and the 0 has a
//! line of its own.

ghost use Rattle.std.specs.Prelude.{◌≡◌, ◌+◌, ◌≤◌, length, take, drop, Some};
ghost use Rattle.cp_io.specs.declared.role.Way.TheVariants.{Out};
ghost use Rattle.cp_io.specs.declared.role.Role.TheVariants.{Full};
ghost use Rattle.cp_io.specs.Port.{AtRole, Writes};
ghost use Rattle.cp_io.specs.Prints.{Prints};
ghost use Rattle.cp_extend.specs.ModelText.{model_text, line_text, value_text, sign_text};

use cp_io::{Desk, Failed, OutputBuffer, Role};
use cp_logic::Assignment;

/// The number of literals on a line.
const TO_A_LINE: u32 = 10;

/// Prints a model to the role Full: that there is one, and its literals. It takes no memory.
///
/// Where a write fails, a front of the text was written.
pub fn print_model<D: Desk>(desk: &mut D, model: &Assignment) -> Result<(), Failed>
    requires { (D.port desk.old Full).way ≡ Some Out }
    ensures { AtRole Full (Writes (model_text model.now) result) (D.port desk.old) (D.port desk.new) }
{
    let lines = model.len().div_ceil(TO_A_LINE);
    let mut buffer = OutputBuffer::new();
    buffer.put(desk, Role::Full, b"s SATISFIABLE\n");
    for line in 0..lines {
        put_line(&mut buffer, desk, model, TO_A_LINE * line);
    }
    buffer.put(desk, Role::Full, b"v 0\n");
    buffer.finish(desk, Role::Full)
}

// The values of the next variables after the first so many.
fn put_line<D: Desk>(buffer: &mut OutputBuffer, desk: &mut D, model: &Assignment, before: u32)
    requires bound { (D.port desk.old Full).way ≡ Some Out }
    requires before { before ≤ length model.now }
    ensures prints { Prints Full (line_text (before + 1) (take 10 (drop before model.now))) buffer.old (D.port desk.old) buffer.new (D.port desk.new) }
    ensures bound { (D.port desk.new Full).way ≡ Some Out }
{
    let last = before + TO_A_LINE.min(model.len() - before);
    buffer.put_byte(desk, Role::Full, b'v');
    for index in before..last {
        put_value(buffer, desk, index + 1, model.get(index + 1));
    }
    buffer.put_byte(desk, Role::Full, b'\n');
}

fn put_value<D: Desk>(buffer: &mut OutputBuffer, desk: &mut D, var: u32, value: bool)
    requires { (D.port desk.old Full).way ≡ Some Out }
    ensures prints { Prints Full (value_text var value) buffer.old (D.port desk.old) buffer.new (D.port desk.new) }
    ensures bound { (D.port desk.new Full).way ≡ Some Out }
{
    let mut number = itoa::Buffer::new();
    buffer.put(desk, Role::Full, sign(value));
    buffer.put(desk, Role::Full, number.format(var).as_bytes());
}

// A space, and the sign of the literal that the value makes true.
fn sign(value: bool) -> &'static [u8]
    ensures { result.now ≡ sign_text value }
{
    if value { b" " } else { b" -" }
}

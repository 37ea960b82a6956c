//! Printing a number behind its sign, as the text formats have their literals.

ghost use Rattle.std.specs.Prelude.{◌≡◌, Some};
ghost use Rattle.cp_io.specs.declared.role.Way.TheVariants.{Out};
ghost use Rattle.cp_io.specs.Prints.{Prints};
ghost use Rattle.cp_io.specs.Signed.{sign_text, signed_text};

use crate::{Desk, OutputBuffer, Role};

/// Prints a number in decimal digits and a space, behind a `-` where it isn't positive. A failure is kept for `finish`.
#[inline]
pub fn put_signed<D: Desk>(
    buffer: &mut OutputBuffer,
    desk: &mut D,
    role: Role,
    positive: bool,
    number: u32,
)
    requires { (D.port desk.old role).way ≡ Some Out }
    ensures prints { Prints role (signed_text positive number) buffer.old (D.port desk.old) buffer.new (D.port desk.new) }
    ensures bound { (D.port desk.new role).way ≡ Some Out }
{
    let mut digits = itoa::Buffer::new();
    buffer.put(desk, role, sign(positive));
    buffer.put(desk, role, digits.format(number).as_bytes());
    buffer.put_byte(desk, role, b' ');
}

fn sign(positive: bool) -> &'static [u8]
    ensures { result.now ≡ sign_text positive }
{
    if positive { b"" } else { b"-" }
}

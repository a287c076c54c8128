// Numbers in a line.
ghost use Rattle.std.specs.Prelude.{OnOk, ◌∷◌};
ghost use Rattle.std.specs.Fmt.{decimal};
ghost use Rattle.std.specs.Io.KnownBytes.{Appends};

use std::io::{Result, Write};

/// Prints a space and a number.
pub fn print_number<W: Write>(out: &mut W, n: usize) -> Result<()>
    ensures { OnOk result (Appends (W.contents out.old) (W.contents out.new) (32 ∷ decimal n)) }
{
    write!(out, " {n}")
}

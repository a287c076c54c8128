// Numbers into a lent slice: as many as fit, and the rest of the slice stays as it was.

ghost use Rattle.std.specs.Prelude.{◌+◌, ◌^◌, ◌<◌, length};
ghost use Rattle.words.specs.Buffers.{Appended};

use words::buffers::append_all;

/// Writes numbers from place `from` on, as many as fit, and returns the place behind them all, also where not all fit.
pub fn put_numbers(numbers: &[usize], out: &mut [usize], from: usize) -> usize
    requires { from + length numbers.now < 2 ^ 64 }
    ensures { Appended out.old from numbers.now out.new result }
{
    append_all(numbers, out, from)
}

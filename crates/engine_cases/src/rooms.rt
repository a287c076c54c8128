// Arrays that are lent. The contract gives the length alone, which is all that lending needs.
ghost use Rattle.std.specs.Prelude.{◌≡◌, length};

/// The bytes that a file may have.
pub const FILE_ROOM: usize = 1000000;

/// The most room for answers that a case may ask for.
pub const TEXT_ROOM: usize = 200000;

/// An array of `BYTES` zeros. Made in a function, an array of this size is known by its length alone and soon checked.
pub fn cleared<const BYTES: usize>() -> [u8; BYTES]
    ensures { BYTES ≡ length result }
{
    [0; BYTES]
}

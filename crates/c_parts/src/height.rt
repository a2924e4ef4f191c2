//! Heights and nestings, at most 255.

ghost use Rattle.std.specs.Prelude.{◌≡◌};
ghost use Rattle.c_reading.specs.Parts as part;

/// One marked part more.
pub fn deeper(height: u8) -> u8
    ensures { result ≡ part.deeper height }
{
    height.saturating_add(1)
}

/// The nesting of the deepest token of a part of this height below so many marks.
pub fn over(depth: u8, height: u8) -> u8
    ensures { result ≡ part.over depth height }
{
    depth.saturating_add(height)
}

//! A stretch of bytes.

ghost use Rattle.std.specs.Prelude.{◌≡◌, ◌↔◌, ◌+◌, ◌≤◌, length, IsTrue, slice_range};
ghost use Rattle.std.specs.Bool.{OnTrue, OnFalse};
ghost use Rattle.ec_memory.specs.Store.{overwritten};

/// Reads the bytes from a place on, or answers false where they aren't all there.
pub fn read_from(region: &[u8], place: usize, to: &mut [u8]) -> bool
    ensures inside { IsTrue result ↔ (place + length to.old ≤ length region.now) }
    ensures read { OnTrue result (to.new ≡ slice_range region.now place (place + length to.old)) }
    ensures outside { OnFalse result (to.new ≡ to.old) }
{
    if place > region.len() || to.len() > region.len() - place {
        return false;
    }
    to.copy_from_slice(&region[place..place + to.len()]);
    true
}

/// Writes the bytes from a place on, or answers false where they aren't all there.
pub fn write_to(region: &mut [u8], place: usize, from: &[u8]) -> bool
    ensures inside { IsTrue result ↔ (place + length from.now ≤ length region.old) }
    ensures written { OnTrue result (region.new ≡ overwritten region.old place from.now) }
    ensures outside { OnFalse result (region.new ≡ region.old) }
{
    if place > region.len() || from.len() > region.len() - place {
        return false;
    }
    region[place..place + from.len()].copy_from_slice(from);
    true
}

//! A memory of bytes.

ghost use Rattle.std.specs.Prelude.{◌≡◌, ◌↔◌, ℕ, Option, length, IsTrue, IsSome, IfSome};
ghost use Rattle.ec_base.specs.Bytes.{Bytes, bytes_from, with_bytes};
ghost use Rattle.std.specs.Bool.{OnTrue, OnFalse};

/// Bytes at some addresses.
pub trait Memory {
    ghost byte_at: { Self → ℕ → Option ℕ };

    /// Two values differ in their bytes alone.
    ghost alike: { Self → Self → Type 0 };

    /// Reads the bytes from an address on, or answers false where they aren't all there.
    fn load(&self, at: u32, to: &mut [u8]) -> bool
        ensures inside { IsTrue result ↔ IsSome (bytes_from (byte_at self.now) at (length to.old)) }
        ensures read { OnTrue result (bytes_from (byte_at self.now) at (length to.old) ≡ Some to.new) }
        ensures outside { OnFalse result (to.new ≡ to.old) };

    /// Writes the bytes from an address on, or answers false where they aren't all there.
    fn store(&mut self, at: u32, from: &[u8]) -> bool
        ensures inside { IsTrue result ↔ IsSome (bytes_from (byte_at self.old) at (length from.now)) }
        ensures written { OnTrue result (byte_at self.new ≡ with_bytes (byte_at self.old) at from.now) }
        ensures outside { OnFalse result (self.new ≡ self.old) }
        ensures rest { alike self.old self.new };

    ghost alike_same: { (m : Self) → alike m m };

    ghost alike_on: { (m n o : Self) → alike m n → alike n o → alike m o };
}

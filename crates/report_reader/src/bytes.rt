//! Parts of bytes.
ghost use Rattle.std.specs.Prelude.{◌≡◌, ◌≤◌, drop, take, length};

/// The first bytes, as many as these.
pub(crate) fn before(bytes: &[u8], end: usize) -> &[u8]
    requires { end ≤ length bytes.now }
    ensures { result.now ≡ take end bytes.now }
{
    &bytes[..end]
}

/// What stands behind so many bytes.
pub(crate) fn behind(bytes: &[u8], start: usize) -> &[u8]
    requires { start ≤ length bytes.now }
    ensures { result.now ≡ drop start bytes.now }
{
    &bytes[start..]
}

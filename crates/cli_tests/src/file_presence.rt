//! Whether there is a file next to another one.
ghost use Rattle.std.specs.Prelude.{◌≡◌, false};
ghost use Rattle.cli_base.specs.Files.{IsUnknown};

use cli_base::Host;

/// Returns whether there is a file at a path, as far as the host can find out: a file whose text is known is there.
pub(crate) fn may_exist<H: Host>(host: &H, path: &str) -> bool
    ensures { result ≡ false → IsUnknown (H.text_at host.now) path.now }
{
    match host.exists(path) {
        Ok(exists) => exists,
        Err(_) => true,
    }
}

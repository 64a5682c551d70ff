//! Custom sections that hold debug information, which is not read.

ghost use Rattle.std.specs.Prelude.{◌≡◌};
ghost use Rattle.custom_sections.specs.DebugNames.{is_debug};

/// Whether a custom section of this name holds debug information: the name without the `.dwo`s at
/// its end begins with `.debug_`.
///
/// No end of `.debug_` is the beginning of `.dwo`. So a name that begins with `.debug_` still does
/// so without its `.dwo`s, and one test is enough.
pub fn is_debug_name(name: &str) -> bool
    ensures { result ≡ is_debug name.now }
{
    name.starts_with(".debug_")
}

// Names of modules, made from paths and URIs.
ghost use Rattle.std.specs.Prelude.{◌≡◌, IfOk, string_bytes};
ghost use Rattle.rn_files.specs.ModuleNames.{is_plain, name_of};

use crate::references::escapes::push_byte;
use std::alloc::{AllocError, Global};

/// Whether a byte of a path stands in a name as it is: `A-Z a-z 0-9 . _ / - : ~`.
fn is_plain(byte: u8) -> bool
    ensures { result ≡ is_plain byte }
{
    byte.is_ascii_alphanumeric() || matches!(byte, b'.' | b'_' | b'/' | b'-' | b':' | b'~')
}

/// The name of the module at a path or a URI: each byte that a module's name may not hold, and `%`, becomes `%` and two
/// hexadecimal digits in upper case. So distinct paths have distinct names.
pub fn module_name(alloc: Global, path: &str) -> Result<String, AllocError>
    ensures { IfOk result (λ name. string_bytes name ≡ name_of path.now) }
{
    let mut name = String::new(alloc);
    for byte in path.as_bytes() {
        push_byte(&mut name, *byte, is_plain(*byte))?;
    }
    Ok(name)
}

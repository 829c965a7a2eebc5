ghost use Rattle.std.specs.Prelude.{◌≡◌, ◌<◌, ◌≤◌, ◌-◌, ◌==◌, length, slice_index, true, not, IfOk};
ghost use Rattle.std.specs.Char.{is_ascii_digit};
ghost use Rattle.std.specs.List.{list_all, suffix_len};
ghost use Rattle.std.specs.Str.{IsUtf8};
ghost use Rattle.std.specs.String.{string_bytes};
ghost use Rattle.ot_theory.specs.Values.{IsPath};
ghost use Rattle.ot_blocks.specs.Paths.{name_part, version_part, is_name_byte, is_name, is_digits};
ghost use Rattle.ot_blocks.specs.Paths.{is_version, is_package, package_path, article_path, folder_of};

use ot_logic::Memory;
use std::alloc::Global;

/// Whether a text is a package's full name, by the theory file format: a name of lower-case letters,
/// digits, `-` and `_`, then `-`, then a version of digits with single dots between. The version is
/// what stands behind the last `-`.
pub fn is_package(full: &[u8]) -> bool
    ensures { result ≡ is_package full.now }
{
    is_name(name_part(full)) && is_version(version_part(full))
}

/// The path of a package's theory file: the folder of packages as given, `/`, the full name, `/`, the
/// name and `.thy`.
pub fn package_path(alloc: Global, packages: &str, full: &[u8]) -> Result<String, Memory>
    requires { is_package full.now ≡ true }
    ensures { IfOk result (λ path. string_bytes path ≡ package_path packages.now full.now) }
{
    let name = text(name_part(full));
    let full = text(full);
    Ok(format!(in alloc; "{packages}/{full}/{name}.thy")?)
}

/// The path of the file that an `article:` of a theory file names: the theory file's path up to its
/// last `/`, and what stands between the quotes.
pub fn article_path(alloc: Global, theory_path: &str, value: &[u8]) -> Result<String, Memory>
    requires { IsPath value.now }
    ensures { IfOk result (λ path. string_bytes path ≡ article_path theory_path.now value.now) }
{
    let folder = folder_of(theory_path);
    let file = text(&value[1..value.len() - 1]);
    Ok(format!(in alloc; "{folder}{file}")?)
}

fn folder_of(path: &str) -> &str
    ensures { result.now ≡ folder_of path.now }
{
    let len = len_to_last(path.as_bytes(), b'/');
    &path[..len]
}

fn text(bytes: &[u8]) -> &str
    requires { IsUtf8 bytes.now }
    ensures { result.now ≡ bytes.now }
{
    str::from_utf8(bytes).unwrap()
}

/// The name of a package, from its full name: what stands before the last `-`, or nothing where
/// there is none.
pub fn name_part(full: &[u8]) -> &[u8]
    ensures { result.now ≡ name_part full.now }
{
    let len = len_to_last(full, b'-');
    &full[..len.saturating_sub(1)]
}

fn version_part(full: &[u8]) -> &[u8]
    ensures { result.now ≡ version_part full.now }
{
    &full[len_to_last(full, b'-')..]
}

/// How many bytes there are up to the last one that is this byte, with it.
fn len_to_last(bytes: &[u8], byte: u8) -> usize
    ensures within { result ≤ length bytes.now }
    ensures last { 0 < result → slice_index bytes.now (result - 1) ≡ byte }
    ensures len { result ≡ length bytes.now - suffix_len (λ b. not (b == byte)) bytes.now }
{
    let mut len = bytes.len();
    'back: while len > 0 && bytes[len - 1] != byte {
        len -= 1;
    }
    len
}

fn is_name(name: &[u8]) -> bool
    ensures { result ≡ is_name name.now }
{
    !name.is_empty() && all_name_bytes(name)
}

fn all_name_bytes(bytes: &[u8]) -> bool
    ensures { result ≡ list_all is_name_byte bytes.now }
{
    bytes.iter().all(|b| is_name_byte(*b))
}

fn is_name_byte(b: u8) -> bool
    ensures { result ≡ is_name_byte b }
{
    b.is_ascii_lowercase() || b.is_ascii_digit() || b == b'-' || b == b'_'
}

fn is_version(version: &[u8]) -> bool
    ensures { result ≡ is_version version.now }
{
    version.split(|b| *b == b'.').all(|part| is_digits(part))
}

fn is_digits(bytes: &[u8]) -> bool
    ensures { result ≡ is_digits bytes.now }
{
    !bytes.is_empty() && all_digits(bytes)
}

fn all_digits(bytes: &[u8]) -> bool
    ensures { result ≡ list_all is_ascii_digit bytes.now }
{
    bytes.iter().all(|b| b.is_ascii_digit())
}

//! Whether a file stands below a directory.
ghost use Rattle.std.specs.Prelude.{◌≡◌, nat_eq};
ghost use Rattle.std.specs.List.{starts_with};
ghost use Rattle.outside.specs.Names.{directory_text};

/// Whether the text of a file's name begins with the first components of another name, a slash behind each.
pub fn is_below(file: &[u8], name: &[u8], parts: u64) -> bool
    ensures { result ≡ starts_with nat_eq file.now (directory_text parts name.now) }
{
    let mut left = parts;
    for i in 0..name.len() {
        if left == 0 {
            return true;
        }
        if i >= file.len() {
            return false;
        }
        if file[i] != name[i] {
            return false;
        }
        if name[i] == b'/' {
            left -= 1;
        }
    }
    left == 0 || file[name.len().min(file.len())..].starts_with(b"/")
}

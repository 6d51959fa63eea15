// Paths in room that was taken before.
ghost use Rattle.std.specs.Prelude.{◌≡◌, ◌+◌, ◌≤◌, ◌++◌, length, string_bytes, string_capacity, string_len};

/// Makes the path of these three parts, in place of what the text holds. Takes no memory.
pub(crate) fn compose(path: &mut String, folder: &str, mark: &str, name: &str)
    requires { length folder.now + length mark.now + length name.now ≤ string_capacity path.old }
    ensures path { string_bytes path.new ≡ folder.now ++ mark.now ++ name.now }
    ensures room { string_capacity path.old ≤ string_capacity path.new }
{
    path.clear();
    path.push_str(folder).unwrap();
    path.push_str(mark).unwrap();
    path.push_str(name).unwrap();
}

// Parts of slices, and bytes written at a place of a lent output.
#![tactic(auto)]

ghost use Rattle.std.specs.Prelude.{◌≡◌, ◌++◌, ◌+◌, ◌≤◌, length, take, drop};

// The first n of the items, or all where there are fewer.
pub fn first<T>(items: &[T], n: usize) -> &[T]
    ensures { result.now ≡ take n items.now }
{
    items.get(..n).unwrap_or(items)
}

// Writes bytes at a place, and gives the place after them.
pub fn put(bytes: &[u8], out: &mut [u8], at: usize) -> usize
    requires { at + length bytes.now ≤ length out.old }
    ensures { (result ≡ at + length bytes.now)
        × (out.new ≡ take at out.old ++ (bytes.now ++ drop result out.old)) }
{
    let end = at + bytes.len();
    out[at..end].copy_from_slice(bytes);
    end
}

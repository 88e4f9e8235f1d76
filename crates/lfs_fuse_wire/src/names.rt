//! Parts of a message: names, each ended by a zero byte, and data of a length that is told.

ghost use Rattle.std.specs.Prelude.{◌≡◌, ◌==◌, ◌<◌, ◌≤◌, IfSome, MatchOption, None, Some, drop, length, position};
ghost use Rattle.lfs_fuse_wire.specs.Names.{first_in, name_in, two_names_in};

/// The place of the first zero byte.
fn end_of_name(bytes: &[u8]) -> Option<usize>
    ensures end { result ≡ position (λ b. b == 0) bytes.now }
    ensures bound { IfSome result (λ n. n < length bytes.now) }
{
    bytes.iter().position(|b| *b == 0)
}

/// The bytes before the first zero byte and those behind it, and `None` where no byte is zero.
pub(crate) fn split_name<'a>(bytes: &'a [u8]) -> Option<(&'a [u8], &'a [u8])>
    ensures { MatchOption result
        (name_in bytes.now ≡ None)
        (λ p. name_in bytes.now ≡ Some (p.0.now, p.1.now)) }
{
    let end = end_of_name(bytes)?;
    Some((&bytes[..end], &bytes[end + 1..]))
}

/// Two names, one behind the other, and `None` where there are fewer.
pub(crate) fn two_names<'a>(bytes: &'a [u8]) -> Option<(&'a [u8], &'a [u8])>
    ensures { MatchOption result
        (two_names_in bytes.now ≡ None)
        (λ p. two_names_in bytes.now ≡ Some (p.0.now, p.1.now)) }
{
    let (first, rest) = split_name(bytes)?;
    let (second, _) = split_name(rest)?;
    Some((first, second))
}

/// The bytes from a place on.
pub(crate) fn behind<'a>(bytes: &'a [u8], at: usize) -> &'a [u8]
    requires { at ≤ length bytes.now }
    ensures { result.now ≡ drop at bytes.now }
{
    &bytes[at..]
}

/// So many bytes from the front, and `None` where there are fewer.
pub(crate) fn first_bytes<'a>(bytes: &'a [u8], count: usize) -> Option<&'a [u8]>
    ensures { MatchOption result
        (first_in count bytes.now ≡ None)
        (λ taken. first_in count bytes.now ≡ Some taken.now) }
{
    if bytes.len() < count {
        return None;
    }
    Some(&bytes[..count])
}

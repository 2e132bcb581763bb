//! A text without its comments (RFC 5322, section 3.2.2).

ghost use Rattle.std.specs.Prelude.{◌≡◌, ◌+◌, ◌<◌, ◌^◌, ◌++◌, IfOk, OnOk, option_map};
ghost use Rattle.mail_dates.specs.Comments.{behind, depth_after, escapes, seen, without_comments};

use std::alloc::{AllocError, Global};

/// In how many comments a text goes on after an octet that stands in so many. One that is escaped opens and closes none.
fn depth_after(depth: usize, is_escaped: bool, octet: u8) -> usize
    requires { depth + 1 < 2 ^ 64 }
    ensures { result ≡ depth_after depth is_escaped octet }
{
    if is_escaped {
        return depth;
    }
    match octet {
        b'(' => depth + 1,
        b')' => depth.saturating_sub(1),
        _ => depth,
    }
}

/// Whether an octet that stands in so many comments is a backslash that takes the next one as it is.
fn escapes(depth: usize, is_escaped: bool, octet: u8) -> bool
    ensures { result ≡ escapes depth is_escaped octet }
{
    depth != 0 && !is_escaped && octet == b'\\'
}

/// What is seen of an octet that stands in so many comments: a space for a parenthesis that opens the first one, and nothing of
/// what stands in one.
fn seen(depth: usize, octet: u8) -> Option<u8>
    ensures { result ≡ seen depth octet }
{
    match (depth, octet) {
        (0, b'(') => Some(b' '),
        (0, octet) => Some(octet),
        _ => None,
    }
}

/// The text without its comments, for each of which it has a space; none where a comment does not end.
#[tactic(auto, unfolding(crate::specs::Comments::uncommented))]
pub fn without_comments(alloc: Global, text: &[u8]) -> Result<Option<Vec<u8>>, AllocError>
    ensures { IfOk result (λ kept.
        option_map (λ v. v.items) kept ≡ without_comments text.now) }
{
    let mut kept = Vec::with_capacity(alloc, text.len())?;
    let mut depth = 0;
    let mut is_escaped = false;
    for octet in text {
        if let Some(octet) = seen(depth, *octet) {
            kept.push(octet)?;
        }
        let escapes_next = escapes(depth, is_escaped, *octet);
        depth = depth_after(depth, is_escaped, *octet);
        is_escaped = escapes_next;
    }
    if depth == 0 { Ok(Some(kept)) } else { Ok(None) }
}

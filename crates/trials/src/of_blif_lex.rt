//! Logical lines of small texts, one after the other.

use blif_lex::{LogicalLine, LogicalLines, MAX_TEXT_BYTES, Span};
use std::alloc::Global;

// A line: its number, whether it is bad, and its tokens with a blank between them.
type Wanted = (u32, bool, &'static str);

static TEXTS: [(&str, &[Wanted]); 8] = [
    ("", &[]),
    (
        ".names a b\n11 1\n",
        &[(1, false, ".names a b"), (2, false, "11 1")],
    ),
    // Lines without tokens are skipped, and counted.
    ("\n \t\n# c\r\n\t.end # x", &[(4, false, ".end")]),
    // Joined lines have the number of the first.
    (
        ".inputs a \\\n  b\\ # c\r\nc\n.end\n",
        &[(1, false, ".inputs a b c"), (4, false, ".end")],
    ),
    // Of two backslashes one is dropped, and the other is a token.
    (
        ".inputs a \\\\\n\n.end",
        &[(1, false, ".inputs a \\"), (3, false, ".end")],
    ),
    // At the end nothing is joined.
    ("a \\", &[(1, false, "a")]),
    // Any byte may stand in a comment, and no other may elsewhere.
    (
        "a # \u{e4}\nb\u{1}\n",
        &[(1, false, "a"), (2, true, "b\u{1}")],
    ),
    ("a\rb\n", &[(1, true, "a\rb")]),
];

// Whether a token stands where the next word of the wanted ones does, and what is then left of them.
fn behind<'a>(text: &[u8], span: &Span, wanted: &'a [u8]) -> Option<&'a [u8]> {
    let rest = wanted.strip_prefix(text.get(span.start..span.end)?)?;
    Some(rest.strip_prefix(b" ").unwrap_or(rest))
}

fn are_tokens(text: &[u8], spans: &[Span], wanted: &[u8]) -> Option<bool> {
    let mut rest = wanted;
    for span in spans {
        rest = behind(text, span, rest)?;
    }
    Some(rest.is_empty())
}

fn is_wanted(text: &[u8], line: &LogicalLine, wanted: &Wanted) -> bool {
    let (number, bad, tokens) = *wanted;
    line.line == number
        && line.bad == bad
        && are_tokens(text, line.tokens.as_slice(), tokens.as_bytes()) == Some(true)
}

fn are_lines(alloc: Global, text: &[u8], wanted: &[Wanted]) -> Option<bool> {
    if text.len() > MAX_TEXT_BYTES {
        return None;
    }
    let mut lines = LogicalLines::new(text);
    for line in wanted {
        let next = lines.next(alloc).ok()??;
        if !is_wanted(text, &next, line) {
            return Some(false);
        }
    }
    Some(lines.next(alloc).ok()?.is_none())
}

#[test]
fn a_text_gives_its_logical_lines_in_order(rt: HostRuntime) {
    let alloc = rt.alloc();
    assert!(rt;
        TEXTS.iter().all(|(text, lines)| are_lines(alloc, text.as_bytes(), lines) == Some(true))
    );
}

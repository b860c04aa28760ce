//! How the lines of a script begin, and how many words each has: what is wrong with words that are of no line.
ghost use Rattle.std.specs.Prelude.{◌≡◌, None};
ghost use Rattle.std.specs.Result.{result_ok};

use crate::entry::{Reading, bad};
use crate::words::is_text;
use crate::wrong::Why;

// A line's first word, its second one where that is a word of the form, how many words it has, and what is wrong where it has others.
const FORMS: [(&str, &str, usize, Why); 18] = [
    ("set", "", 3, Why::SetWords),
    ("dir", "", 2, Why::DirWords),
    ("file", "", 6, Why::FileWords),
    ("short", "", 5, Why::ShortWords),
    ("fault", "ask", 6, Why::AskWords),
    ("fault", "link", 4, Why::LinkWords),
    ("fault", "ack", 4, Why::AckWords),
    ("fault", "send", 4, Why::SendWords),
    ("fault", "read", 5, Why::ReadFaultWords),
    ("do", "create", 8, Why::CreateWords),
    ("do", "append", 3, Why::AppendWords),
    ("do", "write", 4, Why::WriteWords),
    ("do", "close", 3, Why::CloseWords),
    ("do", "read", 5, Why::ReadWords),
    ("do", "mkdirs", 5, Why::MkdirsWords),
    ("do", "delete", 4, Why::DeleteWords),
    ("do", "info", 3, Why::InfoWords),
    ("do", "list", 5, Why::ListWords),
];

/// What is wrong with so many words that begin with these two, where they are of no line: one is missing, or too much, or no line
/// begins so.
pub(crate) fn no_line(kind: &[u8], call: &[u8], count: usize) -> Reading
    ensures { result_ok result ≡ None }
{
    for (first, second, words, why) in FORMS {
        if is_text(kind, first) && (second.is_empty() || is_text(call, second)) {
            return bad(words.min(count), why);
        }
    }
    if is_text(kind, "fault") {
        return bad(1, Why::FaultWords);
    }
    if is_text(kind, "do") {
        return bad(1, Why::CommandWords);
    }
    bad(0, Why::Kind)
}

// Answers a whole script of lines that lies in memory: the sheet is handed one line after the other, and what they are answered stands
// in a lent buffer.
#![tactic(auto)]

ghost use Rattle.std.specs.Prelude.{◌≡◌};
ghost use Rattle.text.specs.Put.{Put};
ghost use Rattle.script.specs.Script.{script_text, answered_with, buffer_with};
ghost use Rattle.script.specs.Inside.{IsUnfed};

use sheet::Sheet;
use text::Writer;

// A line without the feed that ends it; the last one may have none.
fn without_feed(line: &[u8]) -> &[u8]
    ensures { IsUnfed line.now result.now }
{
    line.strip_suffix(b"\n").unwrap_or(line)
}

// The text of all answers, from the buffer's front on: gives the place after it. What has no room is counted.
fn answer_all(script: &[u8], out: &mut [u8]) -> usize
    ensures { Put out.old 0 (script_text script.now) out.new result }
{
    let mut writer = Writer::new(out, 0);
    let mut sheet = Sheet::new();
    for line in script.split_inclusive(|c| *c == b'\n') {
        sheet = session::step(sheet, without_feed(line), &mut writer);
    }
    writer.at
}

// Answers a whole script: the text at the buffer's front where there is room for it, and how long it is; otherwise nothing is written.
pub fn answer(script: &[u8], out: &mut [u8]) -> Option<usize>
    ensures { (result ≡ answered_with (script_text script.now) out.old) × (out.new ≡ buffer_with (script_text script.now) out.old) }
{
    let n = answer_all(script, &mut []);
    if n == usize::MAX || out.len() < n {
        return None;
    }
    answer_all(script, out);
    Some(n)
}

// Answers as lines of text, each written behind the last. What would lie past the buffer's end is not put, but counted.
#![tactic(auto)]

ghost use Rattle.std.specs.Prelude.{◌<◌, ◌≤◌, min, ◌≡◌, get_or};
ghost use Rattle.text.specs.Put.{Writes, WritesUpTo};
ghost use Rattle.answers.specs.Answers.{ok_text, no_text, spaced_all, tags_text, head_text, point_text, points_text};

use text::Writer;

// The line of a call that was accepted.
pub fn put_ok(out: &mut Writer)
    ensures { Writes out.old ok_text out.new }
{
    out.bytes(b"ok\n");
}

// The line of a call that was refused with a number.
pub fn put_no(out: &mut Writer, n: u32)
    ensures { WritesUpTo out.old (no_text n) 14 out.new }
{
    out.pair(b"no ", n);
    out.byte(b'\n');
}

// The number at an index, and 0 past the end.
fn word_at(words: &[u32], i: usize) -> u32
    ensures { result ≡ get_or words.now i 0 }
{
    words.get(i).copied().unwrap_or(0)
}

// The head line of a listing: width, height, points, primary, mode and origin, in this order.
pub fn put_head(out: &mut Writer, given: &[u32])
    ensures { WritesUpTo out.old (head_text given.now) 99 out.new }
{
    // kept: a loop over six words and numbers is no plainer, it only puts the words into a table
    out.pair(b"frame ", word_at(given, 0));
    out.pair(b" ", word_at(given, 1));
    out.pair(b" points ", word_at(given, 2));
    out.pair(b" primary ", word_at(given, 3));
    out.pair(b" mode ", word_at(given, 4));
    out.pair(b" origin ", word_at(given, 5));
    out.byte(b'\n');
}

// The line of point i: its six numbers.
fn put_point(out: &mut Writer, words: &[u32], i: usize)
    requires { i < 39 }
    ensures { WritesUpTo out.old (point_text words.now i) 66 out.new }
{
    // kept: past the end of the words a number is 0, where chunks_exact(6) gives no point
    let w = i * 6;
    out.number(word_at(words, w));
    for k in 1..6 {
        out.pair(b" ", word_at(words, w + k));
    }
    out.byte(b'\n');
}

// The lines of the first points, 39 at the most.
pub fn put_points(out: &mut Writer, words: &[u32], count: usize)
    ensures { WritesUpTo out.old (points_text words.now (min count 39)) 2574 out.new }
{
    for i in 0..count.min(39) {
        put_point(out, words, i);
    }
}

// The first tags, each after a space.
fn put_each(out: &mut Writer, tags: &[u16], n: usize)
    requires { n ≤ 4 }
    ensures { WritesUpTo out.old (spaced_all tags.now n) 44 out.new }
{
    // kept: past the end of the tags a number is 0, where take(n) gives no tag
    for i in 0..n {
        out.pair(b" ", u32::from(tags.get(i).copied().unwrap_or(0)));
    }
}

// The line of contents: how many tags there are, four at the most, and the tags.
pub fn put_tags(out: &mut Writer, tags: &[u16], count: usize)
    ensures { WritesUpTo out.old (tags_text (min count 4) tags.now) 60 out.new }
{
    let n = count.min(4);
    out.pair(b"tags ", n as u32);
    put_each(out, tags, n);
    out.byte(b'\n');
}

// A block, its directory (IFD), the first kept entry of a tag, that entry's value, and which of some tags have a kept entry.
ghost use Rattle.std.specs.Prelude.{◌≡◌, ◌&&◌, not, ◌+◌, ◌*◌, ◌≤◌, ◌<◌, length, drop, Some};
ghost use Rattle.numbers.specs.Numbers.{u16_of};
ghost use Rattle.reading.specs.Block.{block_means, block_of, in_order, directory_of, entry_of, tag_at, is_kept_at, has_tag, first_of, find_of};
ghost use Rattle.reading.specs.Contents.{kept_from, kept_tags, is_among, first_each, tag_list};

use numbers::io::ByteOrder;

// A directory that lies inside its block: where its first entry starts, and how many it has.
#[derive(Clone, Copy, PartialEq, Eq, Debug)]
pub struct Ifd {
    pub first: usize,
    pub count: usize,
}

// How many values an entry has, and which part of the block they are.
#[derive(Clone, Copy, PartialEq, Eq, Debug)]
pub struct Value {
    pub count: u32,
    pub start: usize,
    pub len: usize,
}

// An entry: its type, and its value unless that is damaged.
#[derive(Clone, Copy, PartialEq, Eq, Debug)]
pub struct Entry {
    pub typ: u16,
    pub value: Option<Value>,
}

impl Entry {
    ghost use Rattle.reading.specs.Block.{count_of, value_of};

    // How many values it has; a damaged one counts as none.
    pub fn count(self) -> u32
        ensures { result ≡ count_of (Some self) }
    {
        self.value.map_or(0, |value| value.count)
    }

    // Its value; nothing of a damaged one.
    // kept: the value is that part of the lent block, inline or far, looked up there, a form that 01 names.
    pub fn value_in(self, block: &[u8]) -> &[u8]
        ensures { result.now ≡ value_of block.now (Some self) }
    {
        match self.value {
            Some(value) => numbers::io::head(numbers::io::tail(block, value.start), value.len),
            None => &[],
        }
    }
}

// The directory at the offset in bytes 4 to 7; none where it passes the block's end.
#[tactic(auto, unfolding(crate::specs::Block::directory_of, crate::specs::Block::offset_of, crate::specs::Block::entry_count))]
pub fn parse_ifd(block: &[u8], order: ByteOrder) -> Option<Ifd>
    ensures { result ≡ directory_of order block.now }
{
    let offset = numbers::io::u32_of(numbers::io::tail(block, 4), order) as usize;
    let count = usize::from(numbers::io::u16_of(numbers::io::tail(block, offset), order));
    let first = offset + 2;
    (first + 12 * count <= block.len()).then_some(Ifd { first, count })
}

// The byte order, where the block's directory lies inside it.
#[tactic(auto, unfolding(crate::specs::Block::in_order))]
fn block_in(block: &[u8], order: ByteOrder) -> Option<ByteOrder>
    ensures { block_means result ≡ in_order order block.now }
{
    parse_ifd(block, order).map(|_| order)
}

// kept: `equals` and no match of byte patterns: tried, the check leaves nine goals open, one for each byte that differs.
// The byte order of a block that can be read, by its length, its header, and its directory; none of any other.
#[tactic(auto, unfolding(crate::specs::Block::block_of, crate::specs::Block::by_mark))]
pub fn parse_block(block: &[u8]) -> Option<ByteOrder>
    ensures { block_means result ≡ block_of block.now }
{
    if !(8..=1_048_576).contains(&block.len()) {
        return None;
    }
    let mark = numbers::io::head(block, 4);
    if numbers::io::equals(mark, b"II*\0") {
        return block_in(block, ByteOrder::Little);
    }
    if numbers::io::equals(mark, b"MM\0*") {
        return block_in(block, ByteOrder::Big);
    }
    None
}

// The 16-bit number at `at`, which lies inside the block: read where it lies, without a second test of bounds.
fn u16_at(block: &[u8], at: usize, order: ByteOrder) -> u16
    requires { at + 2 ≤ length block.now }
    ensures { result ≡ u16_of order (drop at block.now) }
{
    numbers::io::joined_bytes(order, block[at], block[at + 1])
}

// kept: `at + 12 ≤ length` in four private contracts below; the entry's bytes in its place would lose where it stands, which its value
// inside it needs.
// The entry whose 12 bytes start at `at`.
#[tactic(auto, unfolding(crate::specs::Block::entry_of))]
fn entry_at(block: &[u8], order: ByteOrder, at: usize) -> Entry
    requires { at + 12 ≤ length block.now }
    ensures { result ≡ entry_of order block.now at }
{
    let typ = u16_at(block, at + 2, order);
    let count = numbers::io::u32_of(numbers::io::tail(block, at + 4), order);
    let field = at + 8;
    let len = count as usize * usize::from(crate::types::type_size(typ));
    let far = numbers::io::u32_of(numbers::io::tail(block, field), order) as usize;
    let start = if len <= 4 { field } else { far };
    let value = (len <= 4 || far + len <= block.len()).then_some(Value { count, start, len });
    Entry { typ, value }
}

// Whether the entry at `at` is kept.
fn is_kept_at(block: &[u8], order: ByteOrder, at: usize) -> bool
    requires { at + 12 ≤ length block.now }
    ensures { result ≡ is_kept_at order block.now at }
{
    0 < crate::types::type_size(u16_at(block, at + 2, order))
}

// Whether the entry at `at` is kept and has the tag.
#[tactic(auto, unfolding(crate::specs::Block::has_tag))]
fn has_tag(block: &[u8], order: ByteOrder, at: usize, tag: u16) -> bool
    requires { at + 12 ≤ length block.now }
    ensures { result ≡ has_tag order block.now tag at }
{
    u16_at(block, at, order) == tag && is_kept_at(block, order, at)
}

// The first kept entry with the tag, of a directory's.
#[tactic(auto, using(crate::proofs::Entries::hit, crate::proofs::Entries::passed_over, crate::proofs::Entries::none_left))]
fn first_of(block: &[u8], order: ByteOrder, directory: Ifd, tag: u16) -> Option<Entry>
    requires { directory.first + 12 * directory.count ≤ length block.now }
    ensures { result ≡ first_of order block.now tag directory.first directory.count }
{
    for i in 0..directory.count {
        let at = directory.first + 12 * i;
        if has_tag(block, order, at, tag) {
            return Some(entry_at(block, order, at));
        }
    }
    None
}

// The block's first kept entry with the tag; none where the directory passes the block's end.
#[tactic(auto, using(crate::proofs::Entries::entries_inside), unfolding(crate::specs::Block::find_of))]
pub fn find_entry(block: &[u8], order: ByteOrder, tag: u16) -> Option<Entry>
    ensures { result ≡ find_of order block.now tag }
{
    first_of(block, order, parse_ifd(block, order)?, tag)
}

// Some tags in four places: how many, and the tags; the places behind them are 0.
// kept: fixed memory, as the project's rule is, so the places have a count beside them.
#[derive(Clone, Copy, PartialEq, Eq, Debug)]
pub struct TagList {
    pub count: usize,
    pub tags: [u16; 4],
}

// Whether a tag is among some.
fn is_among(tag: u16, tags: &[u16]) -> bool
    ensures { result ≡ is_among tag tags.now }
{
    tags.contains(&tag)
}

// Whether the entry at `at` is kept, and is the first one of a wanted tag: of one that has not been met.
fn is_first(block: &[u8], order: ByteOrder, at: usize, wanted: &[u16], met: &[u16]) -> bool
    requires { at + 12 ≤ length block.now }
    ensures { result ≡ (is_among (tag_at order block.now at) wanted.now && not (is_among (tag_at order block.now at) met.now) && is_kept_at order block.now at) }
{
    let tag = u16_at(block, at, order);
    is_among(tag, wanted) && !is_among(tag, met) && is_kept_at(block, order, at)
}

// The wanted tags that have a kept entry, in the order of their first ones, of a directory's entries.
fn tags_from(block: &[u8], order: ByteOrder, directory: Ifd, wanted: &[u16]) -> TagList
    requires { (directory.first + 12 * directory.count ≤ length block.now) × (length wanted.now ≤ 4) }
    ensures { result ≡ tag_list (first_each wanted.now (kept_from order block.now directory.first directory.count)) }
{
    let mut tags = [0u16; 4];
    let mut met: usize = 0;
    for i in 0..directory.count {
        let at = directory.first + 12 * i;
        if is_first(block, order, at, wanted, &tags[..met]) {
            tags[met] = u16_at(block, at, order);
            met += 1;
        }
    }
    TagList { count: met, tags }
}

// The wanted tags that have a kept entry, in the order of their first ones in the directory; none where it passes the block's end.
#[tactic(auto, using(crate::proofs::Entries::entries_inside), unfolding(crate::specs::Contents::kept_tags, crate::specs::Contents::first_each))]
pub fn find_tags(block: &[u8], order: ByteOrder, wanted: [u16; 4]) -> TagList
    ensures { result ≡ tag_list (first_each wanted (kept_tags order block.now)) }
{
    match parse_ifd(block, order) {
        Some(directory) => tags_from(block, order, directory, &wanted),
        None => TagList {
            count: 0,
            tags: [0; 4],
        },
    }
}

// The map program's text: what it prints of a map's 352 bytes, of a clash and of a refusal, put into a buffer whose first bytes it
// then is: there is no heap for a String. A row is read by its offsets in the map, as the definitions have it: a type of rows would
// hold the same two, map and number.
#![tactic(auto)]

ghost use Rattle.std.specs.Prelude.{◌≡◌, ◌+◌, ◌≤◌, ◌<◌, length};
ghost use Rattle.base.specs.Puts.{PutFrom};
ghost use Rattle.paper.specs.Sizes.{most_unknowns, most_parts};
ghost use Rattle.paper.specs.Programs.{decimal, spaced, printed_look, printed_clash, printed_refusal};
ghost use Rattle.printing.specs.Prints.{symbol_at, part_count_at, plate_printed, look_at, row_printed, map_printed, most_printed};
ghost use Rattle.printing.specs.Texts.{HasRoom, Adds};

use itoa::Buffer;
use layout::{Map, ROW_BYTES, SYMBOL_BYTES};
use paper::sizes;

// The kind of an open row.
const OPEN: u8 = 0;

// The text so far is the buffer's first `end` bytes. It stands beside statements' Writer, which is alike: a type's methods stand in
// its own crate, and each of the two has its own. What has to fit is another text in each method, so that each has its clause of it.
#[derive(Drop)]
struct Text<'a> {
    buffer: &'a mut [u8],
    end: usize,
}

impl<'a> Text<'a> {
    // No text yet.
    fn new(buffer: &'a mut [u8]) -> Text<'a>
        ensures same_reference { result.buffer.ghost_name ≡ buffer.entry.ghost_name }
        ensures same_bytes { result.buffer.now ≡ buffer.old }
        ensures empty { result.end ≡ 0 }
    {
        Text { buffer, end: 0 }
    }

    // A word.
    fn word(&mut self, word: &[u8])
        requires { HasRoom self.old word.now }
        ensures { Adds self.old word.now self.new }
    {
        let end = self.end + word.len();
        self.buffer[self.end..end].copy_from_slice(word);
        self.end = end;
    }

    // A number in decimal digits. No `write!`, since no clause of it says that it cannot fail, as these calls cannot.
    fn number(&mut self, n: usize)
        requires { HasRoom self.old (decimal n) }
        ensures { Adds self.old (decimal n) self.new }
    {
        let mut digits = Buffer::new();
        self.word(digits.format(n).as_bytes());
    }

    // A number after a space.
    fn spaced(&mut self, n: usize)
        requires { HasRoom self.old (spaced n) }
        ensures { Adds self.old (spaced n) self.new }
    {
        self.word(b" ");
        self.number(n);
    }

    // The symbol and the parts of row x, which is a record's. `as`, for no `From` makes a usize of a u32.
    fn plate(&mut self, map: &Map, x: usize)
        requires known { x < most_unknowns }
        requires room { HasRoom self.old (plate_printed map.now x) }
        ensures { Adds self.old (plate_printed map.now x) self.new }
    {
        self.spaced(symbol(map, x) as usize);
        let first = ROW_BYTES * x + 3 + SYMBOL_BYTES;
        for part in &map[first..first + part_count(map, x)] {
            self.spaced(usize::from(*part));
        }
    }

    // What row x says after its lowest item: open, or a plate.
    fn look(&mut self, map: &Map, x: usize)
        requires known { x < most_unknowns }
        requires room { HasRoom self.old (printed_look (look_at map.now x)) }
        ensures { Adds self.old (printed_look (look_at map.now x)) self.new }
    {
        let kind = map[ROW_BYTES * x + 1];
        if kind == OPEN {
            self.word(b" open");
        } else {
            self.word(b" plate");
            self.plate(map, x);
        }
    }

    // The line of unknown x.
    fn row(&mut self, map: &Map, x: usize)
        requires known { x < most_unknowns }
        requires room { HasRoom self.old (row_printed map.now x) }
        ensures { Adds self.old (row_printed map.now x) self.new }
    {
        self.number(x);
        self.spaced(usize::from(map[ROW_BYTES * x]));
        self.look(map, x);
        self.word(b"\n");
    }
}

// The symbol of row x: four bytes by their indices, since a part of the map is no array whose length is known.
fn symbol(map: &Map, x: usize) -> u32
    requires { x < most_unknowns }
    ensures { result ≡ symbol_at map.now x }
{
    let at = ROW_BYTES * x;
    u32::from_le_bytes([map[at + 2], map[at + 3], map[at + 4], map[at + 5]])
}

// The part count of row x, at most four.
fn part_count(map: &Map, x: usize) -> usize
    requires { x < most_unknowns }
    ensures same { result ≡ part_count_at map.now x }
    ensures few { result ≤ most_parts }
{
    usize::from(map[ROW_BYTES * x + 2 + SYMBOL_BYTES]).min(sizes::MOST_PARTS)
}

// What is printed of a map with v unknowns, at the start of a buffer; gives its length.
pub fn print_map(map: &Map, v: usize, out: &mut [u8]) -> usize
    requires known { v ≤ most_unknowns }
    requires room { most_printed ≤ length out.old }
    ensures { PutFrom 0 (map_printed map.now v) out.old out.new result }
{
    let mut text = Text::new(out);
    text.word(b"items");
    text.spaced(v);
    text.word(b"\n");
    for x in 0..v {
        text.row(map, x);
    }
    text.end
}

// What is printed of a run that clashed.
pub fn print_clash(out: &mut [u8]) -> usize
    requires { most_printed ≤ length out.old }
    ensures { PutFrom 0 printed_clash out.old out.new result }
{
    let mut text = Text::new(out);
    text.word(b"clash\n");
    text.end
}

// What is printed of a file that is refused: the refusal's number and the position. It takes any two numbers, as it did, and so no
// Fault; nor has Fault a Display, whose clause would let it fail.
pub fn print_refusal(out: &mut [u8], number: usize, position: usize) -> usize
    requires { most_printed ≤ length out.old }
    ensures { PutFrom 0 (printed_refusal number position) out.old out.new result }
{
    let mut text = Text::new(out);
    text.word(b"refused");
    text.spaced(number);
    text.word(b" at");
    text.spaced(position);
    text.word(b"\n");
    text.end
}

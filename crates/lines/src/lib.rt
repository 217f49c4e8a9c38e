// The lister's lines: one for each item of a host stream, and the last one. They are poured, so that one stands behind another.
#![tactic(auto)]

ghost use Rattle.std.specs.Prelude.{◌≡◌, [], ◌∷◌, pos};
ghost use Rattle.parameters.specs.Shapes.{values_of, tail_of};
ghost use Rattle.parameters.specs.Numbers.{numbers_of};
ghost use Rattle.commands.specs.Reading.{tell_taken};
ghost use Rattle.stream.specs.Items.{item_of};
ghost use Rattle.lines.specs.Decimals.{decimal, field, fields};
ghost use Rattle.lines.specs.Pouring.{Put};
ghost use Rattle.lines.specs.Pens.{Puts};
ghost use Rattle.lines.specs.Lines.{listed, opening, text_line, del_line, letters, command_head, parameters_words, command_line, pair, refused_line, line_of, last_letter, last_line};

use commands::TakenCommand;
use parameters::Parameters;
use stream::Item;

// No lent bytes are as many: a count of bytes stops here.
const FAR: usize = 9223372036854775808;

// Where the next byte of a line goes: the bytes lent, and the place from their start.
#[derive(Drop)]
struct Pen<'a> {
    out: &'a mut [u8],
    at: usize,
}

fn last_letter(more: bool) -> u8
    ensures { result ≡ last_letter more }
{
    if more { b'M' } else { b'E' }
}

impl Pen<'_> {
    // ---- bytes and numbers

    // One byte, stored where there is room, and counted.
    fn put(&mut self, b: u8)
        ensures { Puts self.old (b ∷ []) self.new }
    {
        if self.at < self.out.len() {
            self.out[self.at] = b;
            self.at += 1;
        } else if self.at < FAR {
            self.at += 1;
        }
    }

    // The digits of `n`.
    fn decimal(&mut self, n: usize)
        ensures { Puts self.old (decimal n) self.new }
    {
        if n >= 10 {
            self.decimal(n / 10);
        }
        self.put(b'0' + (n % 10) as u8);
    }

    // A blank and a number that is not negative.
    fn natural(&mut self, n: usize)
        ensures { Puts self.old (field (pos n)) self.new }
    {
        self.put(b' ');
        self.decimal(n);
    }

    // A blank and any number.
    fn number(&mut self, v: i32)
        ensures { Puts self.old (field v) self.new }
    {
        self.put(b' ');
        if signs::is_negative(v) {
            self.put(b'-');
        }
        self.decimal(signs::magnitude(v) as usize);
    }

    // Each number of the list, with a blank before it.
    fn numbers(&mut self, list: &[i32])
        ensures { Puts self.old (fields list.now) self.new }
    {
        for v in list {
            self.number(*v);
        }
    }

    // ---- the parameters

    // The numbers of the fixed values, each with a blank before it.
    fn fixed(&mut self, parameters: Parameters)
        ensures { Puts self.old (fields (numbers_of (values_of parameters))) self.new }
    {
        let fixed = parameters::numbers_of(parameters);
        self.numbers(&fixed.values[..fixed.len]);
    }

    // The count and the entries, where the parameters have any.
    fn listed(&mut self, parameters: Parameters, count: usize, list: &[i32])
        ensures { Puts self.old (listed (tail_of parameters) count list.now) self.new }
    {
        if parameters::tail_of(parameters).is_some() {
            self.natural(count);
            self.numbers(&list[..count.min(list.len())]);
        }
    }

    fn parameters_words(&mut self, parameters: Parameters, count: usize, list: &[i32])
        ensures { Puts self.old (parameters_words (values_of parameters) (tail_of parameters) count list.now) self.new }
    {
        self.fixed(parameters);
        self.listed(parameters, count, list);
    }

    // ---- the lines

    // A letter and where the item starts.
    fn opening(&mut self, letter: u8, start: usize)
        ensures { Puts self.old (opening letter start) self.new }
    {
        self.put(letter);
        self.natural(start);
    }

    fn text_line(&mut self, start: usize, b: u8)
        ensures { Puts self.old (text_line start b) self.new }
    {
        self.opening(b'T', start);
        self.natural(b as usize);
        self.put(b'\n');
    }

    fn del_line(&mut self, start: usize)
        ensures { Puts self.old (del_line start) self.new }
    {
        self.opening(b'D', start);
        self.put(b'\n');
    }

    // A blank and the two op letters.
    fn letters(&mut self, first: u8, second: u8)
        ensures { Puts self.old (letters first second) self.new }
    {
        self.put(b' ');
        self.put(first);
        self.put(second);
    }

    fn command_head(&mut self, start: usize, first: u8, second: u8)
        ensures { Puts self.old (command_head start first second) self.new }
    {
        self.opening(b'C', start);
        self.letters(first, second);
    }

    fn command_line(&mut self, taken: TakenCommand, start: usize, list: &[i32])
        ensures { Puts self.old (command_line (tell_taken taken) start list.now) self.new }
    {
        let command = taken.command;
        self.command_head(start, command.first, command.second);
        self.parameters_words(command.parameters, taken.count, list);
        self.put(b'\n');
    }

    fn pair(&mut self, a: usize, b: usize)
        ensures { Puts self.old (pair a b) self.new }
    {
        self.natural(a);
        self.natural(b);
    }

    fn refused_line(&mut self, start: usize, number: usize, place: usize)
        ensures { Puts self.old (refused_line start number place) self.new }
    {
        self.opening(b'R', start);
        self.pair(number, place);
        self.put(b'\n');
    }

    #[tactic(auto, using(crate::proofs::Pours::poured_none), unfolding(stream::specs::Items::item_of, crate::specs::Lines::line_of))]
    fn line(&mut self, item: Item, start: usize, list: &[i32])
        ensures { Puts self.old (line_of (item_of item) start list.now) self.new }
    {
        match item {
            Item::Nothing | Item::Refused(_) => {}
            Item::Text(text) => self.text_line(start, text.byte),
            Item::Del(_) => self.del_line(start),
            Item::Command(taken) => self.command_line(taken, start, list),
            Item::RefusedCommand(refused) => {
                let number = refused.refusal.number() as usize;
                self.refused_line(start, number, refused.place);
            }
        }
    }

    fn last_line(&mut self, more: bool, n: usize)
        ensures { Puts self.old (last_line more n) self.new }
    {
        self.opening(last_letter(more), n);
        self.put(b'\n');
    }
}

// The line of the item that starts at `start`, with its newline, from `at` on. Where there is no item the line is empty.
pub fn put_line(item: Item, start: usize, list: &[i32], out: &mut [u8], at: usize) -> usize
    ensures { Put out.old at (line_of (item_of item) start list.now) result out.new }
{
    let mut pen = Pen { out, at };
    pen.line(item, start, list);
    pen.at
}

// "Last: E and the bytes read, or M 4096 if more input follows": `E n` or `M n`, with its newline, from `at` on.
pub fn put_last(more: bool, n: usize, out: &mut [u8], at: usize) -> usize
    ensures { Put out.old at (last_line more n) result out.new }
{
    let mut pen = Pen { out, at };
    pen.last_line(more, n);
    pen.at
}

// Text put on a lent buffer, one run of bytes behind another. Every method promises `Prints` of specs/Writing.antt: of bytes that do not
// fit the first are written, and the rest of the buffer is unchanged. Which bytes they are is said by tsparql's Strikes.
#![tactic(auto)]

ghost use Rattle.std.specs.Prelude.{[], ◌∷◌, ◌*◌, ◌≤◌, ◌<◌, length};
ghost use Rattle.tsparql.specs.Lists.{concat_map};
ghost use Rattle.tsparql.specs.Check.{refuse};
ghost use Rattle.tsparql.specs.Strikes.{decimal, trust_text, value_text, cell_text, row_line, refused_line, counts_line};
ghost use Rattle.cells.specs.Words.{word_trust, word_cell};
ghost use Rattle.rows.specs.RowWords.{row_in, rows_in};
ghost use Rattle.text.specs.Writing.{Prints, cells_text, counted};

use cells::FIRST_TRUST;
use rows::row_at;

// A lent buffer and the place behind what was written into it.
#[derive(Drop)]
pub struct Page<'a> {
    pub bytes: &'a mut [u8],
    pub at: usize,
}

impl Page<'_> {
    // ---- bytes and numbers

    // One byte.
    fn put_byte(&mut self, b: u8)
        ensures { Prints (b ∷ []) self.old self.new }
    {
        if self.at < self.bytes.len() {
            self.bytes[self.at] = b;
            self.at += 1;
        }
    }

    // The bytes of a text, in order.
    fn put_text(&mut self, text: &[u8])
        ensures { Prints text.now self.old self.new }
    {
        for b in text {
            self.put_byte(*b);
        }
    }

    // The decimal digits of n.
    fn put_decimal(&mut self, n: u64)
        ensures { Prints (decimal n) self.old self.new }
    {
        if n >= 10 {
            self.put_decimal(n / 10);
        }
        self.put_byte(b'0' + (n % 10) as u8);
    }

    // ---- values

    // The trust of a word, in thousandths or `?`.
    fn put_trust(&mut self, word: u32)
        ensures { Prints (trust_text (word_trust word)) self.old self.new }
    {
        if word > 2000 {
            self.put_byte(b'?');
        } else if word < 1000 {
            self.put_byte(b'-');
            self.put_decimal((1000 - word) as u64);
        } else {
            self.put_decimal((word - 1000) as u64);
        }
    }

    // The value of a cell's word that is set.
    fn put_value(&mut self, word: u32)
        requires { 0 < word }
        ensures { Prints (value_text (word_cell word)) self.old self.new }
    {
        if word < FIRST_TRUST {
            self.put_decimal(word as u64);
        } else {
            self.put_byte(b't');
            self.put_trust(word - FIRST_TRUST);
        }
    }

    // A variable and the value of its cell's word; nothing for a free cell.
    fn put_cell(&mut self, v: usize, word: u32)
        ensures { Prints (cell_text v (word_cell word)) self.old self.new }
    {
        if word != 0 {
            self.put_text(b" ?");
            self.put_decimal(v as u64);
            self.put_byte(b'=');
            self.put_value(word);
        }
    }

    // ---- lines

    // The set variables of a row, rising.
    fn put_cells(&mut self, row: [u32; 17])
        ensures { Prints (cells_text (row_in row)) self.old self.new }
    {
        for v in 0..16 {
            self.put_cell(v, row[v]);
        }
    }

    // The line of a row.
    fn put_row(&mut self, row: [u32; 17])
        ensures { Prints (row_line (row_in row)) self.old self.new }
    {
        self.put_trust(row[16]);
        self.put_cells(row);
        self.put_byte(b'\n');
    }

    // The lines of the first n rows of a row space.
    pub fn put_rows(&mut self, space: &[u32], n: usize)
        requires { 17 * n ≤ length space.now }
        ensures { Prints (concat_map row_line (rows_in n space.now)) self.old self.new }
    {
        for i in 0..n {
            self.put_row(row_at(space, i));
        }
    }

    // The line of a refusal.
    pub fn put_refusal(&mut self, number: u32, place: u64)
        ensures { Prints (refused_line (refuse number place)) self.old self.new }
    {
        self.put_text(b"refused ");
        self.put_decimal(number as u64);
        self.put_text(b" at ");
        self.put_decimal(place);
        self.put_byte(b'\n');
    }

    // The line of an answer's counts.
    pub fn put_counts(&mut self, rows: u32, peak: u32, pairs: u64)
        ensures { Prints (counts_line (counted rows peak pairs)) self.old self.new }
    {
        self.put_text(b"rows ");
        self.put_decimal(rows as u64);
        self.put_text(b" peak ");
        self.put_decimal(peak as u64);
        self.put_text(b" pairs ");
        self.put_decimal(pairs);
        self.put_byte(b'\n');
    }
}

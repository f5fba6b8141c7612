// The groups of the rows of a row space by their cell of a variable, as entries in a lent output. The rows are numbered by their cells
// first, so that the length is known before anything is written; then each joins the entry of its number.
#![tactic(auto)]

ghost use Rattle.std.specs.Prelude.{◌≡◌, ◌+◌, ◌*◌, ◌≤◌, ◌<◌, length};
ghost use Rattle.tsparql.specs.Totals.{totals_words};
ghost use Rattle.rows.specs.RowWords.{rows_in, word_of, RowsHeld};
ghost use Rattle.totals.specs.Numbers.{FoundBefore, Numbered, Numbers};
ghost use Rattle.totals.specs.Chains.{most_rows, bucket, LastIn, Linked, Chained};
ghost use Rattle.totals.specs.Entries.{Addable, Added, entered, Entered};

use rows::lesser_word;

// ---- chains

// The chain that a row with the word x for the variable is in.
fn bucket_of(x: u32) -> usize
    ensures { result ≡ bucket x }
{
    let w = x as usize;
    (w + w / 65536 * 40503) % 65536
}

// A row before row i that has the word x for variable u. The search begins at the last row of x's chain.
fn find_before(space: &[u32], i: usize, u: usize, x: u32, last: u16, links: &[u16]) -> Option<usize>
    requires { (17 * i ≤ length space.now) × (u < 16) × (i ≤ length links.now) × LastIn u (bucket x) i space.now last
        × Linked u i space.now links.now }
    ensures { FoundBefore u i x space.now result }
{
    let mut c = usize::from(last);
    while 0 < c {
        let row = c - 1;
        if space[17 * row + u] == x {
            return Some(row);
        }
        c = usize::from(links[row]);
    }
    None
}

// Puts row i in front of its chain. Answers a row before it that has its word for variable u.
fn chain_row(
    space: &[u32],
    i: usize,
    u: usize,
    heads: &mut [u16],
    links: &mut [u16],
) -> Option<usize>
    requires { (17 * i + 17 ≤ length space.now) × (u < 16) × (i < most_rows) × Chained u i space.now heads.old links.old }
    ensures { FoundBefore u i (word_of u i space.now) space.now result
        × Chained u (i + 1) space.now heads.new links.new }
{
    let x = space[17 * i + u];
    let b = bucket_of(x);
    let last = heads[b];
    let found = find_before(space, i, u, x, last, links);
    links[i] = last;
    heads[b] = (i + 1) as u16;
    found
}

// ---- numbers

// Numbers the first n rows by their cells of variable u. Answers how many different cells there are.
fn number_rows(space: &[u32], n: usize, u: usize, numbers: &mut [u16]) -> usize
    requires { RowsHeld n space.now × (u < 16) × (n ≤ most_rows) × (n ≤ length numbers.old) }
    ensures { Numbers u n space.now numbers.new result }
{
    let mut heads = [0; 65536];
    let mut links = [0; 65535];
    let mut k = 0;
    for i in 0..n {
        match chain_row(space, i, u, &mut heads, &mut links) {
            Some(row) => numbers[i] = numbers[row],
            None => {
                numbers[i] = k as u16;
                k += 1;
            }
        }
    }
    k
}

// ---- entries

// A row with the words x for its variable and t for its trust joins the entry s, one of the first k, or makes the next one.
// Answers how many entries there are.
fn add_row(out: &mut [u32], k: usize, s: usize, x: u32, t: u32) -> usize
    requires { Addable k s out.old }
    ensures { Added k s x t out.old out.new result }
{
    let at = 3 * s;
    if s == k {
        out[at] = x;
        out[at + 1] = 1;
        out[at + 2] = t;
        return k + 1;
    }
    out[at + 1] += 1;
    out[at + 2] = lesser_word(out[at + 2], t);
    k
}

// Writes the entries of the first n rows, whose numbers are given, to the front of the output.
fn write_entries(space: &[u32], n: usize, u: usize, numbers: &[u16], out: &mut [u32])
    requires { RowsHeld n space.now × (u < 16) × (n ≤ most_rows) × (n ≤ length numbers.now) × Numbered u n space.now numbers.now
        × (length (totals_words u (rows_in n space.now)) ≤ length out.old) }
    ensures { out.new ≡ entered u (rows_in n space.now) out.old }
{
    let mut k = 0;
    for i in 0..n {
        let s = usize::from(numbers[i]);
        k = add_row(out, k, s, space[17 * i + u], space[17 * i + 16]);
    }
}

// The entries of the first n rows by variable u: how many words they are; written to the front of the output where they fit.
pub fn total_rows(space: &[u32], n: usize, u: usize, out: &mut [u32]) -> usize
    requires { RowsHeld n space.now × (u < 16) × (n ≤ most_rows) }
    ensures { Entered u (rows_in n space.now) out.old out.new result }
{
    let mut numbers = [0; 65535];
    let words = 3 * number_rows(space, n, u, &mut numbers);
    if out.len() < words {
        return words;
    }
    write_entries(space, n, u, &numbers, out);
    words
}

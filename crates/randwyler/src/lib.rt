// The calls. For C they stand in randwyler_c; their names and layouts are in include/randwyler.h.
#![tactic(auto)]

ghost use Rattle.std.specs.Prelude.{◌≡◌, true, false, List, ℕ, ◌<◌};
ghost use Rattle.tsparql.specs.Check.{check};
ghost use Rattle.tsparql.specs.Rewrite as Rewrite;
ghost use Rattle.tsparql.specs.Calls.{ceiling_call, ceiling_refused, raised, raise_one, evaluate};
ghost use Rattle.tsparql.specs.Totals.{totals_call};
ghost use Rattle.grammar.specs.ReadText.{read_text};
ghost use Rattle.refusals.specs.Refusals.{refusal_of, written_in};
ghost use Rattle.table.specs.Answers.{view_of};
ghost use Rattle.randwyler.specs.Answers.{Checked, refusal_in, rewritten_in, ceiling_in};
ghost use Rattle.patterns.specs.Sets.{aggregation_of, aggregate_of};
ghost use Rattle.randwyler.specs.Answers.{chosen, tally_in, evaluated_in, RefusedWith, Ready, Answered};
ghost use Rattle.randwyler.specs.Answers.{totals_in, TotalsRefusedWith, TotalsAnswered};

use ceiling::ceiling_node;
use evaluation::answer;
use patterns::Aggregation;
use reading::read_text;
use refusals::Refused;
use rewriting::rewrite;
use scope::check_query;
use table::{Table, check_table};
use totals::total_rows;

// The most bytes of a query that is evaluated.
const EVALUATE_LIMIT: usize = 5120;
// The number of an answer that is no refusal.
const NO_REFUSAL: u32 = 0;
// The length of what is written on a refusal.
const NOTHING_WRITTEN: u64 = 0;

// A sound table beside a sound query: refusals 1 to 4 of the table, then 5 to 7 of the query.
fn check_both<'a>(table: &'a [u8], query: &'a [u8]) -> Result<Table<'a>, Refused>
    ensures { Checked table.now query.now result }
{
    let checked = check_table(table)?;
    check_query(query, EVALUATE_LIMIT)?;
    Ok(checked)
}

// ---- check

// Number and place of the first refusal that applies; both are 0 where none does.
#[repr(C)]
#[derive(Clone, Copy)]
pub struct Refusal {
    pub number: u32,
    pub place: u64,
}

// The check of a table and a query: refusals 1 to 7. Nothing is written.
pub fn randwyler_check(table: &[u8], query: &[u8]) -> Refusal
    ensures { refusal_in result ≡ check table.now query.now }
{
    match check_both(table, query) {
        Ok(_) => Refusal {
            number: NO_REFUSAL,
            place: 0,
        },
        Err(r) => Refusal {
            number: r.number(),
            place: r.place() as u64,
        },
    }
}

// ---- rewriting

// A refusal, or the length of the result at the front of the output; what does not apply is 0.
#[repr(C)]
#[derive(Clone, Copy)]
pub struct Rewritten {
    pub number: u32,
    pub place: u64,
    pub length: u64,
}

// The answer of a call that writes an output.
fn written(r: Result<usize, Refused>) -> Rewritten
    ensures { (out : List ℕ) → rewritten_in result out ≡ written_in r out }
{
    match r {
        Ok(length) => Rewritten {
            number: NO_REFUSAL,
            place: 0,
            length: length as u64,
        },
        Err(r) => Rewritten {
            number: r.number(),
            place: r.place() as u64,
            length: NOTHING_WRITTEN,
        },
    }
}

// The rewriting of a query into a lent output: refusals 5 to 7 and 9. Past the result, and on a refusal, the output is unchanged.
pub fn randwyler_rewrite(query: &[u8], output: &mut [u8]) -> Rewritten
    ensures { rewritten_in result output.new ≡ Rewrite.rewrite query.now output.old }
{
    written(rewrite(query, output))
}

// ---- typed queries

// The query bytes of a text into a lent output: refusals 11 and 12. Past the bytes, and on a refusal, the output is unchanged.
pub fn randwyler_read_text(text: &[u8], output: &mut [u8]) -> Rewritten
    ensures { rewritten_in result output.new ≡ read_text text.now output.old }
{
    written(read_text(text, output))
}

// ---- ceiling

// A refusal, or a number that the query's rows never exceed; what does not apply is 0.
#[repr(C)]
#[derive(Clone, Copy)]
pub struct Ceiling {
    pub number: u32,
    pub place: u64,
    pub ceiling: u32,
}

fn ceiling_refused(r: Refused) -> Ceiling
    ensures { ceiling_in result ≡ ceiling_refused (refusal_of r) }
{
    Ceiling {
        number: r.number(),
        place: r.place() as u64,
        ceiling: 0,
    }
}

// The ceiling of a query over a table: refusals 1 to 7. Nothing is written.
pub fn randwyler_ceiling_of(table: &[u8], query: &[u8]) -> Ceiling
    ensures { ceiling_in result ≡ ceiling_call table.now query.now }
{
    match check_both(table, query) {
        Err(r) => ceiling_refused(r),
        Ok(checked) => match ceiling_node(&checked, query) {
            Err(f) => ceiling_refused(Refused::from(f)),
            Ok((ceiling, _)) => Ceiling {
                number: NO_REFUSAL,
                place: 0,
                ceiling,
            },
        },
    }
}

// ---- evaluation

// How many calls that take it were answered, and how many refused; each stops at 4,294,967,295.
#[repr(C)]
#[derive(Clone, Copy)]
pub struct Tally {
    pub answered: u32,
    pub refused: u32,
}

// A refusal, or the counts of an answer; what does not apply is 0. The tally comes back with one of its two raised.
#[repr(C)]
#[derive(Clone, Copy)]
pub struct Evaluated {
    pub number: u32,
    pub place: u64,
    pub rows: u32,
    pub peak: u32,
    pub pairs: u64,
    pub tally: Tally,
}

// One more, stopping at the greatest value.
fn one_more(n: u32) -> u32
    ensures { result ≡ raised n }
{
    n.saturating_add(1)
}

fn with_answered(a: Tally) -> Tally
    ensures { tally_in result ≡ raise_one true (tally_in a) }
{
    Tally {
        answered: one_more(a.answered),
        ..a
    }
}

fn with_refused(a: Tally) -> Tally
    ensures { tally_in result ≡ raise_one false (tally_in a) }
{
    Tally {
        refused: one_more(a.refused),
        ..a
    }
}

// A refusal is counted as refused.
fn evaluation_refused(r: Refused, a: Tally) -> Evaluated
    ensures { RefusedWith (refusal_of r) (tally_in a) result }
{
    Evaluated {
        number: r.number(),
        place: r.place() as u64,
        rows: 0,
        peak: 0,
        pairs: 0,
        tally: with_refused(a),
    }
}

// The mean where the caller asks for it, else the least.
fn chosen_aggregation(mean: bool) -> Aggregation
    ensures { aggregation_of result ≡ chosen mean }
{
    if mean {
        Aggregation::Mean
    } else {
        Aggregation::Least
    }
}

// The answer to a checked query, counted in the tally.
fn evaluate_checked(
    table: &Table<'_>,
    query: &[u8],
    space: &mut [u32],
    tally: Tally,
    g: Aggregation,
) -> Evaluated
    requires { Ready (view_of table.now.view) table.now.bytes.now query.now }
    ensures { Answered (aggregate_of g) (view_of table.now.view) table.now.bytes.now query.now (tally_in tally)
        space.old space.new result }
{
    match answer(table, query, space, g) {
        Err(r) => evaluation_refused(r, tally),
        Ok(counts) => Evaluated {
            number: NO_REFUSAL,
            place: 0,
            rows: counts.rows,
            peak: counts.peak,
            pairs: counts.pairs,
            tally: with_answered(tally),
        },
    }
}

// The evaluation of a query over a table in a lent row space, by mean or least trust: refusals 1 to 7 with the row space untouched, 8 with
// it all zero; else the rows at the front and zeros behind them.
pub fn randwyler_evaluate(
    table: &[u8],
    query: &[u8],
    mean: bool,
    space: &mut [u32],
    tally: Tally,
) -> Evaluated
    ensures { evaluated_in result space.new
        ≡ evaluate table.now query.now (chosen mean) space.old (tally_in tally) }
{
    let g = chosen_aggregation(mean);
    match check_both(table, query) {
        Err(r) => evaluation_refused(r, tally),
        Ok(checked) => evaluate_checked(&checked, query, space, tally, g),
    }
}

// ---- totals

// The greatest variable.
const LAST_VARIABLE: u32 = 15;

// A refusal, or how many words of the output the entries take; what does not apply is 0. The tally comes back with one of its two raised.
#[repr(C)]
#[derive(Clone, Copy)]
pub struct Totalled {
    pub number: u32,
    pub place: u64,
    pub length: u64,
    pub tally: Tally,
}

// A refusal is counted as refused.
fn totals_refused(r: Refused, a: Tally) -> Totalled
    ensures { TotalsRefusedWith (refusal_of r) (tally_in a) result }
{
    Totalled {
        number: r.number(),
        place: r.place() as u64,
        length: 0,
        tally: with_refused(a),
    }
}

// The totals of a checked query, counted in the tally.
fn totals_checked(
    table: &Table<'_>,
    query: &[u8],
    variable: usize,
    space: &mut [u32],
    output: &mut [u32],
    tally: Tally,
    g: Aggregation,
) -> Totalled
    requires { Ready (view_of table.now.view) table.now.bytes.now query.now × (variable < 16) }
    ensures { TotalsAnswered (aggregate_of g) (view_of table.now.view) table.now.bytes.now query.now variable
        space.old output.old (tally_in tally) space.new output.new result }
{
    match answer(table, query, space, g) {
        Err(r) => totals_refused(r, tally),
        Ok(counts) => {
            let words = total_rows(space, counts.rows as usize, variable, output);
            if output.len() < words {
                return totals_refused(Refused::TotalsTooLong(words), tally);
            }
            Totalled {
                number: NO_REFUSAL,
                place: 0,
                length: words as u64,
                tally: with_answered(tally),
            }
        }
    }
}

// For each different cell of a variable in the rows of an evaluation by the same choice, an entry of 3 words in a lent output: the cell,
// how many rows have it, the least of their trusts. Refusals 1 to 7 and 10 for the variable, with the row space untouched; 8 with it all
// zero; and 10 for an output that is too short, with the rows in it as in an answer. Behind the entries, and on a refusal, the output is as
// it was.
pub fn randwyler_totals_of(
    table: &[u8],
    query: &[u8],
    mean: bool,
    variable: u32,
    space: &mut [u32],
    output: &mut [u32],
    tally: Tally,
) -> Totalled
    ensures { totals_in result space.new output.new ≡ totals_call table.now query.now
        (chosen mean) variable space.old output.old (tally_in tally) }
{
    let g = chosen_aggregation(mean);
    match check_both(table, query) {
        Err(r) => totals_refused(r, tally),
        Ok(_) if variable > LAST_VARIABLE => totals_refused(Refused::NoSuchVariable, tally),
        Ok(checked) => totals_checked(&checked, query, variable as usize, space, output, tally, g),
    }
}

// The text of the program `strikes` from the bytes of its two files: the evaluation in a row space of 963 rows, and its report.
#![tactic(auto)]

ghost use Rattle.tsparql.specs.Table.{whole_table, facts_in};
ghost use Rattle.tsparql.specs.PatternSets.{by_least, aggregate, rows_over};
ghost use Rattle.tsparql.specs.Reading.{query_node};
ghost use Rattle.tsparql.specs.Calls.{evaluate_untallied};
ghost use Rattle.tsparql.specs.Strikes.{report, strikes};
ghost use Rattle.randwyler.specs.Answers.{evaluated_in};
ghost use Rattle.rows.specs.RowWords.{rows_in};
ghost use Rattle.text.specs.Writing.{Puts, Prints};
ghost use Rattle.report.specs.Reported.{RowsFit};

use randwyler::{Evaluated, Tally, randwyler_evaluate};
use text::Page;

// The most bytes of a facts file.
const FACTS_LIMIT: usize = 65529;

// The report of an evaluation and of the rows at the front of its row space.
fn put_report(e: Evaluated, space: &[u32], page: &mut Page)
    requires { RowsFit e space.now }
    ensures { Prints (report (evaluated_in e space.now).evaluated (rows_in e.rows space.now)) page.old page.new }
{
    if e.number != 0 {
        page.put_refusal(e.number, e.place);
    } else {
        page.put_counts(e.rows, e.peak, e.pairs);
        page.put_rows(space, e.rows as usize);
    }
}

// The report of the evaluation of a query by least trust in a lent row space.
fn put_evaluation(facts: &[u8], query: &[u8], space: &mut [u32], page: &mut Page)
    ensures { Prints (report (evaluate_untallied facts.now query.now by_least space.old)
        (rows_over (aggregate by_least) (facts_in (whole_table facts.now) facts.now) (query_node query.now)))
        page.old page.new }
{
    let none = Tally {
        answered: 0,
        refused: 0,
    };
    let e = randwyler_evaluate(facts, query, false, space, none);
    put_report(e, space, page);
}

// What `strikes` prints.
fn put_strikes(facts: &[u8], query: &[u8], page: &mut Page)
    ensures { Prints (strikes facts.now query.now) page.old page.new }
{
    if facts.len() > FACTS_LIMIT {
        page.put_refusal(2, 0);
    } else {
        let mut space = [0u32; 16371];
        put_evaluation(facts, query, &mut space, page);
    }
}

// Writes what `strikes` prints at the front of the buffer, as far as it fits, and answers how many bytes that are.
pub fn write_strikes(facts: &[u8], query: &[u8], out: &mut [u8]) -> usize
    ensures { Puts (strikes facts.now query.now) 0 out.old out.new result }
{
    let mut page = Page { bytes: out, at: 0 };
    put_strikes(facts, query, &mut page);
    page.at
}

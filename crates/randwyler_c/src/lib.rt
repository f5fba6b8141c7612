// The calls for C, which are those of the crate randwyler. Their names and layouts are in include/randwyler.h.
#![tactic(auto)]

ghost use Rattle.std.specs.Prelude.{◌≡◌};
ghost use Rattle.tsparql.specs.Check.{check};
ghost use Rattle.tsparql.specs.Rewrite as Rewrite;
ghost use Rattle.tsparql.specs.Calls.{ceiling_call, evaluate};
ghost use Rattle.tsparql.specs.Totals.{totals_call};
ghost use Rattle.grammar.specs.ReadText.{read_text};
ghost use Rattle.randwyler.specs.Answers.{refusal_in, rewritten_in, ceiling_in, chosen, tally_in, evaluated_in, totals_in};

use randwyler::{Ceiling, Evaluated, Refusal, Rewritten, Tally, Totalled};

// The check of a table and a query: refusals 1 to 7. Nothing is written.
#[unsafe(no_mangle)]
pub extern "C" fn randwyler_check(table: &[u8], query: &[u8]) -> Refusal
    ensures { refusal_in result ≡ check table.now query.now }
{
    randwyler::randwyler_check(table, query)
}

// The rewriting of a query into a lent output: refusals 5 to 7 and 9. Past the result, and on a refusal, the output is unchanged.
#[unsafe(no_mangle)]
pub extern "C" fn randwyler_rewrite(query: &[u8], output: &mut [u8]) -> Rewritten
    ensures { rewritten_in result output.new ≡ Rewrite.rewrite query.now output.old }
{
    randwyler::randwyler_rewrite(query, output)
}

// The query bytes of a text into a lent output: refusals 11 and 12. Past the bytes, and on a refusal, the output is unchanged.
#[unsafe(no_mangle)]
pub extern "C" fn randwyler_read_text(text: &[u8], output: &mut [u8]) -> Rewritten
    ensures { rewritten_in result output.new ≡ read_text text.now output.old }
{
    randwyler::randwyler_read_text(text, output)
}

// The ceiling of a query over a table: refusals 1 to 7. Nothing is written.
#[unsafe(no_mangle)]
pub extern "C" fn randwyler_ceiling_of(table: &[u8], query: &[u8]) -> Ceiling
    ensures { ceiling_in result ≡ ceiling_call table.now query.now }
{
    randwyler::randwyler_ceiling_of(table, query)
}

// The evaluation of a query over a table in a lent row space, by mean or least trust: refusals 1 to 7 with the row space untouched, 8 with
// it all zero; else the rows at the front and zeros behind them.
#[unsafe(no_mangle)]
pub extern "C" fn randwyler_evaluate(
    table: &[u8],
    query: &[u8],
    mean: bool,
    space: &mut [u32],
    tally: Tally,
) -> Evaluated
    ensures { evaluated_in result space.new
        ≡ evaluate table.now query.now (chosen mean) space.old (tally_in tally) }
{
    randwyler::randwyler_evaluate(table, query, mean, space, tally)
}

// For each different cell of a variable in the rows of an evaluation by the same choice, an entry of 3 words in a lent output: the cell,
// how many rows have it, the least of their trusts. Refusals 1 to 7 and 10 for the variable, with the row space untouched; 8 with it all
// zero; and 10 for an output that is too short, with the rows in it as in an answer. Behind the entries, and on a refusal, the output is as
// it was.
#[unsafe(no_mangle)]
pub extern "C" fn randwyler_totals_of(
    table: &[u8],
    query: &[u8],
    mean: bool,
    variable: u32,
    space: &mut [u32],
    output: &mut [u32],
    tally: Tally,
) -> Totalled
    ensures { totals_in result space.new output.new ≡ totals_call table.now query.now
        (chosen mean) variable space.old output.old (tally_in tally) }
{
    randwyler::randwyler_totals_of(table, query, mean, variable, space, output, tally)
}

// The C face of a case read and solved: `serbihun_pair_case`.
ghost use Rattle.steps.specs.Lent.{buffers};
ghost use Rattle.pairing.specs.Pair.{loan};
ghost use Rattle.serbihun.specs.Pair.{PairedWithHuts};

use pairing::Pairs;

// Pairs the fragments of a file with its events: `pairing::pair_case`, and the hut of every row.
#[unsafe(no_mangle)]
pub extern "C" fn serbihun_pair_case(
    file: &[u8],
    costs: &mut [i32],
    mask: &mut [u8],
    working: &mut [i64],
    marks: &mut [u8],
    columns: &mut [u16],
    row_prices: &mut [i64],
    column_prices: &mut [i64],
    huts: &mut [u16],
) -> Pairs
    ensures { PairedWithHuts file.now (loan costs.old mask.old
        (buffers working.old marks.old columns.old row_prices.old column_prices.old)) huts.old result
        (loan costs.new mask.new
        (buffers working.new marks.new columns.new row_prices.new column_prices.new)) huts.new }
{
    let pairs = pairing::pair_case(
        file,
        costs,
        mask,
        working,
        marks,
        columns,
        row_prices,
        column_prices,
    );
    case_face::put_huts(file, pairs.number, huts);
    pairs
}

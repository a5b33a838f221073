// A record of the file `files`: its case file is read again, and every answer is held against what the record says.
use crate::record::Record;
use calls::CELLS;
use storm_case::{Case, Rule};

// Each match_ reads what the record says next, and gives none where that is another or cut off.

// What the room holds before, and holds still where nothing is stored.
const JUNK_COST: i32 = -1_431_655_766;

const JUNK_BYTE: u8 = 85;

// The huts of the first rows, which are stored. Rows that are not there have none: the one behind the last, and some further on.
fn match_huts(record: &mut Record<'_>, rows: usize, file: &[u8]) -> Option<()> {
    for row in 0..rows {
        if storm_case::hut_of(file, row) != Some(record.u16()?) {
            return None;
        }
    }
    [rows, rows.saturating_add(1), 64, usize::MAX]
        .iter()
        .all(|&row| storm_case::hut_of(file, row).is_none())
        .then_some(())
}

// So many cells, which are stored, costs before mask; the room behind them is as it was. Of more cells than the room has, the rest is passed over.
fn match_cells(
    record: &mut Record<'_>,
    cells: usize,
    costs: &[i32; CELLS],
    mask: &[u8; CELLS],
) -> Option<()> {
    let within = cells.min(CELLS);
    let mut stored_costs = [JUNK_COST; CELLS];
    for cost in &mut stored_costs[..within] {
        *cost = record.i32()?;
    }
    for _ in within..cells {
        record.i32()?;
    }
    let mut stored_mask = [JUNK_BYTE; CELLS];
    stored_mask[..within].copy_from_slice(record.take(cells)?.get(..within)?);
    (stored_costs == *costs && stored_mask == *mask).then_some(())
}

// What stands at an offset: 0 and the body, or the number of a refusal.
fn match_offset(record: &mut Record<'_>, file: &[u8]) -> Option<()> {
    let offset = record.u64()? as usize;
    let number = match storm_case::find(file, offset) {
        Ok(_) => 0,
        Err(missing) => Rule::from(missing).number(),
    };
    let stored = u32::from(record.u8()?);
    let length = record.u8()?;
    let body = record.take(usize::from(length))?;
    (stored == number && body == storm_case::body(file, offset)).then_some(())
}

// The case's number where every answer is as stored.
pub(crate) fn replay(record: &[u8]) -> Option<u8> {
    let mut record = Record::new(record);
    let number = record.u8()?;
    let n = record.u8()?;
    let rows = record.u8()?;
    let offsets = record.u8()?;
    let place = record.u32()?;
    let window = record.u32()?;
    let room = usize::from(record.u16()?);
    let mask_room = usize::from(record.u16()?);
    let length = record.u16()?;
    let cells = record.u16()?;
    let file = record.take(usize::from(length))?;
    match_huts(&mut record, usize::from(rows), file)?;
    let mut costs = [JUNK_COST; CELLS];
    let mut mask = [JUNK_BYTE; CELLS];
    let (costs_room, mask_room) = (costs.get_mut(..room)?, mask.get_mut(..mask_room)?);
    let case = Case::from(storm_case::read_case(file, costs_room, mask_room));
    let same = case.number == u32::from(number)
        && case.n == usize::from(n)
        && case.place == place as usize
        && case.window == window;
    same.then_some(())?;
    match_cells(&mut record, usize::from(cells), &costs, &mask)?;
    for _ in 0..offsets {
        match_offset(&mut record, file)?;
    }
    record.is_empty().then_some(number)
}

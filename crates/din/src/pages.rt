// The pages that the lines of a din trace touch, numbered by first appearance: one pass over the lines with a table of pages.
// What they are is written in specs/.
ghost use Rattle.std.specs.Prelude.{◌≡◌, ◌≤◌, ◌<◌, length};
ghost use Rattle.din.specs.Pages.{touched_by, touched_with};
ghost use Rattle.din.specs.inner.Held.{table_places, home_of, empty_places, pages_of, marks_of, mark_of, Found, number_at, imported_of};

use model::{Refusal, Sheet};

// How many segments and steps the sheet has, and the segment that each step touches, at the front of `Sheet::IDLE`. Nothing is
// allocated, so the touches are an array with their number beside it.
#[derive(Clone, Copy)]
pub struct Imported {
    pub segs: usize,
    pub steps: usize,
    pub touches: [u16; Sheet::MAX_STEPS],
}

impl Imported {
    // The least and the largest power of two of a page's bytes.
    pub const MIN_POWER: u64 = 8;

    pub const MAX_POWER: u64 = 24;
    // The places of the table of pages, twice as many as there are segments.
    const PLACES: usize = 512;
}

// A page of the table, and its segment.
#[derive(Clone, Copy)]
struct Seen {
    page: u32,
    segment: u16,
}

// The place of the table at which a page is looked for first.
fn home(page: u32) -> usize
    ensures { result ≡ home_of page }
{
    ((page as u64) * 2_654_435_769 / 8_388_608 % Imported::PLACES as u64) as usize
}

// The place of the page in the table, or the empty place at which it is to stand.
fn place_of(table: &[Option<Seen>], page: u32) -> usize
    requires { (length table.now ≡ table_places) × (1 ≤ empty_places (marks_of table.now)) }
    ensures { Found (pages_of table.now) (marks_of table.now) page result }
{
    let start = home(page);
    for j in 0..Imported::PLACES {
        let place = (start + j) % Imported::PLACES;
        match table[place] {
            Some(seen) if seen.page != page => {}
            _ => return place,
        }
    }
    unreachable!()
}

// The number of the page at a place: the next number where the place is empty.
fn number_at(place: Option<Seen>, next: usize) -> usize
    ensures { result ≡ number_at (mark_of place) next }
{
    match place {
        Some(seen) => seen.segment as usize,
        None => next,
    }
}

// The lines of a trace, with pages of 2 to the power k bytes: one pass, up to the first line that is refused.
fn lines(bytes: &[u8], k: u32) -> Result<Imported, Refusal>
    requires { k < 32 }
    ensures { result ≡ imported_of (touched_by k bytes.now) }
{
    let values = crate::lines::digit_values();
    let mut table = [None; Imported::PLACES];
    let mut touches = [Sheet::IDLE; Sheet::MAX_STEPS];
    let mut segs = 0;
    let mut steps = 0;
    let mut at = 0;
    // Each line says where the next one begins: no count of steps is known before.
    while at < bytes.len() {
        let Some(line) = crate::lines::line(&bytes[at..], &values) else {
            return Err(Refusal::TraceMalformed);
        };
        let page = line.address >> k;
        let place = place_of(&table, page);
        let segment = number_at(table[place], segs);
        if segment == Sheet::MAX_SEGS || steps == Sheet::MAX_STEPS {
            return Err(Refusal::TraceTooLong);
        }
        let number = segment as u16;
        table[place] = Some(Seen {
            page,
            segment: number,
        });
        touches[steps] = number;
        segs = segs.max(segment + 1);
        steps += 1;
        at += line.next;
    }
    Ok(Imported {
        segs: segs.max(1),
        steps,
        touches,
    })
}

// The segments and steps of the sheet that stands for a trace, with pages of 2 to the power k bytes: 23 where k is not from 8 to
// 24, then the lines in order, 24 before 25.
pub fn trace(bytes: &[u8], k: u64) -> Result<Imported, Refusal>
    ensures { result ≡ imported_of (touched_with k bytes.now) }
{
    if k < Imported::MIN_POWER || Imported::MAX_POWER < k {
        return Err(Refusal::PageOutOfRange);
    }
    lines(bytes, k as u32)
}

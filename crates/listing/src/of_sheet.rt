// The listing of an accepted sheet, written into a lent place.
// What the text is stands in specs/Listing.antt.
ghost use Rattle.std.specs.Prelude.{◌≡◌, Ok};
ghost use Rattle.model.specs.Places.{PlaceLeft};
ghost use Rattle.model.specs.Sheets.{trace_of};
ghost use Rattle.model.specs.Standing.{Standing};
ghost use Rattle.model.specs.Traces.{refs_of};
ghost use Rattle.model.specs.Values.{value_of};
ghost use Rattle.listing.specs.Listing.{listing_of};

use crate::Listing;
use crate::row_text::has_modtotal;
use model::{Refusal, Sheet};
use store_plan::modtotals;

// How many references an accepted sheet has: the steps whose entry is a segment, added up without a branch.
pub fn sheet_refs(s: Sheet) -> usize
    requires { Standing s }
    ensures { result ≡ refs_of (trace_of (value_of s)) }
{
    let segs = s.head.segs;
    let mut refs: u16 = 0;
    for x in &s.touches[..s.steps] {
        refs += u16::from((*x as usize) < segs);
    }
    usize::from(refs)
}

// The listing of an accepted sheet into a lent place, or 11.
pub fn sheet_listing(s: Sheet, out: &mut [u8]) -> Result<usize, Refusal>
    requires { Standing s }
    ensures { PlaceLeft (Ok (listing_of (value_of s))) out.old out.new result }
{
    let all = rows::all_figures(s);
    let refs = sheet_refs(s);
    let totals = if has_modtotal(s.form) {
        modtotals::all_modtotals(s, all)
    } else {
        modtotals::no_modtotals()
    };
    let shown = Listing {
        form: s.form,
        refs,
        steps: s.steps,
        segs: s.head.segs,
        figures: &all[..s.head.rows],
        modtotals: &totals,
    };
    shown.write(out)
}

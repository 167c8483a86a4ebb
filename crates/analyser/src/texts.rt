// The listing, what the program prints, and the page for the binder.
// What each call answers is written in specs/Texts.antt.
ghost use Rattle.std.specs.Prelude.{Ok};
ghost use Rattle.model.specs.Places.{PlaceLeft};
ghost use Rattle.analyser.specs.Texts.{listing_result, page_result, printed_text};

use crate::sheets;
use model::Refusal;

// The listing into a lent place, then its old contents: refused with the sheet's refusals, 11.
pub fn listing(bytes: &[u8], out: &mut [u8]) -> Result<usize, Refusal>
    ensures { PlaceLeft (listing_result bytes.now) out.old out.new result }
{
    let sheet = sheets::read(bytes)?;
    listing::of_sheet::sheet_listing(sheet, out)
}

// What the program prints for a run of bytes into a lent place, then its old contents: the listing, or for a refused sheet `refused=` and
// the number, which is no refusal of this call; 11 and no change where the place is too short.
pub fn printed(bytes: &[u8], out: &mut [u8]) -> Result<usize, Refusal>
    ensures { PlaceLeft (Ok (printed_text bytes.now)) out.old out.new result }
{
    match sheets::read(bytes) {
        Err(why) => listing::write_refusal(why, out),
        Ok(sheet) => listing::of_sheet::sheet_listing(sheet, out),
    }
}

// The page for the binder into a lent place, two where there are more than 58 rows, then its old contents: refused with the sheet's
// refusals, 11.
pub fn page(bytes: &[u8], out: &mut [u8]) -> Result<usize, Refusal>
    ensures { PlaceLeft (page_result bytes.now) out.old out.new result }
{
    let sheet = sheets::read(bytes)?;
    page::sheet_page(sheet, out)
}
